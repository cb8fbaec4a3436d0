// Events as a host gets them, over plain bytes: pairs and numbers of two bytes each, woven into four.
ghost use Rattle.std.specs.Prelude.{◌≡◌, ◌*◌, length};
ghost use Rattle.drain.specs.weave.Weave.{woven};

use bits::bytes::{number, put_bytes};
use image::form;

// The weight of what stands behind the two bytes of a pair.
const BEHIND: u64 = 65536;

// Each pair, and then its number: the four bytes of an event are written as one.
pub fn put_events(out: &mut [u8], pairs: &[u8], numbers: &[u8], n: usize)
    requires { (length out.old ≡ 4 * n) × (length pairs.now ≡ 2 * n) × (length numbers.now ≡ 2 * n) }
    ensures { out.new ≡ woven pairs.now numbers.now }
{
    for k in 0..n {
        let from = form::PAIR * k;
        let last = from + form::PAIR;
        let event = number(&pairs[from..last]) + BEHIND * number(&numbers[from..last]);
        put_bytes(out, form::EVENT * k, form::EVENT, event);
    }
}
