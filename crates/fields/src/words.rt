// The registers of an image of a form.
ghost use Rattle.std.specs.Prelude.{◌≡◌, length};
ghost use Rattle.rules.specs.Lines.{with_mask, with_irr, with_isr};
ghost use Rattle.rules.specs.Core.{plain, with_plain};
ghost use Rattle.images.specs.Form.{word, stored, place, form_length};
ghost use Rattle.image.specs.Shown.{form_view};
ghost use Rattle.device.specs.map.Views.{plain_view};
ghost use Rattle.fields.specs.inplace.Held.{Reads, Becomes, with_lines, with_stored};

use bits::bytes::{put_word, word_at};
use device::map::Plain;
use image::form::{Form, places_of};

pub fn mask(image: &[u8], form: Form) -> u64
    requires { length image.now ≡ form_length (form_view form) }
    ensures { Reads image.now result (λ d. d.core.lines.mask) }
{
    let p = places_of(form);
    word_at(image, p.int_mask)
}

pub fn irr(image: &[u8], form: Form) -> u64
    requires { length image.now ≡ form_length (form_view form) }
    ensures { Reads image.now result (λ d. d.core.lines.irr) }
{
    let p = places_of(form);
    word_at(image, p.intirr)
}

pub fn isr(image: &[u8], form: Form) -> u64
    requires { length image.now ≡ form_length (form_view form) }
    ensures { Reads image.now result (λ d. d.core.lines.isr) }
{
    let p = places_of(form);
    word_at(image, p.intisr)
}

pub fn put_mask(image: &mut [u8], form: Form, x: u64)
    requires { length image.old ≡ form_length (form_view form) }
    ensures { Becomes image.old image.new (λ d. with_lines d (with_mask d.core.lines x)) }
{
    let p = places_of(form);
    put_word(image, p.int_mask, x);
}

// IRR and its copy; in a form that has none, IRR twice.
pub fn put_irr(image: &mut [u8], form: Form, x: u64)
    requires { length image.old ≡ form_length (form_view form) }
    ensures { Becomes image.old image.new (λ d. with_lines d (with_irr d.core.lines x)) }
{
    let p = places_of(form);
    put_word(image, p.intirr, x);
    put_word(image, p.last_intirr, x);
}

pub fn put_isr(image: &mut [u8], form: Form, x: u64)
    requires { length image.old ≡ form_length (form_view form) }
    ensures { Becomes image.old image.new (λ d. with_lines d (with_isr d.core.lines x)) }
{
    let p = places_of(form);
    put_word(image, p.intisr, x);
}

// ---- the registers that are only stored

fn place_of(form: Form, register: Plain) -> usize
    ensures { result ≡ place (form_view form) (word (stored (plain_view register))) }
{
    let p = places_of(form);
    match register {
        Plain::HtmsiEn => p.htmsi_en,
        Plain::Edge => p.intedge,
        Plain::Pol => p.int_polarity,
        Plain::Auto0 => p.auto_ctrl0,
        Plain::Auto1 => p.auto_ctrl1,
    }
}

pub fn plain(image: &[u8], form: Form, register: Plain) -> u64
    requires { length image.now ≡ form_length (form_view form) }
    ensures { Reads image.now result (λ d. plain d.core.stored (plain_view register)) }
{
    word_at(image, place_of(form, register))
}

pub fn put_plain(image: &mut [u8], form: Form, register: Plain, x: u64)
    requires { length image.old ≡ form_length (form_view form) }
    ensures { Becomes image.old image.new (λ d. with_stored d (with_plain d.core.stored (plain_view register) x)) }
{
    put_word(image, place_of(form, register), x);
}
