// What is saved word by word: the contents of an image, and its registers.
ghost use Rattle.std.specs.Prelude.{◌≡◌, ◌++◌, length, drop};
ghost use Rattle.images.specs.Form.{form_length, contents_length, contents_of};
ghost use Rattle.image.specs.Shown.{form_view};
ghost use Rattle.stored.specs.saves.Shown.{SavesLines, SavesStored};

use bits::bytes::put_word;
use device::state::{Lines, Stored};
use image::form::{Form, contents_of, places_of};

pub fn put_contents(image: &mut [u8], form: Form)
    requires { length image.old ≡ form_length (form_view form) }
    ensures { image.new ≡ contents_of (form_view form) ++ drop (contents_length (form_view form)) image.old }
{
    let c = contents_of(form);
    put_word(image, 0, c.first);
    put_word(image, 8, c.second);
    put_word(image, 14, c.third);
    // where there are four bodies these are all
    let Form::Numbered = form else {
        return;
    };
    put_word(image, c.last_at, c.last);
}

pub fn save_lines(image: &mut [u8], form: Form, lines: Lines)
    requires { length image.old ≡ form_length (form_view form) }
    ensures { SavesLines (form_view form) lines image.old image.new }
{
    let p = places_of(form);
    put_word(image, p.int_mask, lines.int_mask);
    put_word(image, p.last_intirr, lines.intirr);
    put_word(image, p.intirr, lines.intirr);
    put_word(image, p.intisr, lines.intisr);
}

pub fn save_stored(image: &mut [u8], form: Form, stored: Stored)
    requires { length image.old ≡ form_length (form_view form) }
    ensures { SavesStored (form_view form) stored image.old image.new }
{
    let p = places_of(form);
    put_word(image, p.htmsi_en, stored.htmsi_en);
    put_word(image, p.intedge, stored.intedge);
    put_word(image, p.int_polarity, stored.int_polarity);
    put_word(image, p.auto_ctrl0, stored.auto_ctrl0);
    put_word(image, p.auto_ctrl1, stored.auto_ctrl1);
}
