// One record of the file, with the bytes of the five that stand behind an image's, replayed on the image buffer.
ghost use Rattle.std.specs.Prelude.{◌≡◌, ◌<◌, take, OnOk};
ghost use Rattle.replay.specs.records.Records.{word_at};
ghost use Rattle.replay.specs.Replays.{loaded, damaged_by, Replays};

use crate::records::{Held, Kind, Mismatch};
use crate::replay_call;
use bits::bytes::{copy, put_zeros, word_at};

// The buffer becomes a recorded image, with zeros behind it.
fn set_image(bytes: &[u8; 320], image: &mut [u8; 300])
    ensures { image.new ≡ loaded bytes.now }
{
    copy(&mut image[0..290], &bytes[0..290]);
    put_zeros(&mut image[290..300]);
}

// The whole buffer, held against a recorded one.
fn whole_image(bytes: &[u8; 320], image: &[u8; 300]) -> Result<(), Mismatch>
    ensures { OnOk result (image.now ≡ take 300 bytes.now) }
{
    if image.as_slice() == &bytes[0..300] {
        Ok(())
    } else {
        Err(Mismatch::Whole)
    }
}

// One byte of the buffer is damaged, or mended.
fn set_byte(noted: &[u8; 64], image: &mut [u8; 300]) -> Result<(), Mismatch>
    ensures { word_at 16 noted.now < 300 → image.new ≡ damaged_by noted.now image.old }
{
    let at = word_at(noted, 16) as usize;
    if 300 <= at {
        return Err(Mismatch::Lent);
    }
    image[at] = noted[24];
    Ok(())
}

pub fn replay_record(
    noted: &[u8; 64],
    bytes: &[u8; 320],
    image: &mut [u8; 300],
) -> Result<Held, Mismatch>
    ensures { Replays noted.now bytes.now image.old image.new result }
{
    match Kind::try_from(noted[0])? {
        Kind::Call(_) => {
            replay_call::replay_call(noted, image)?;
            Ok(Held::Agrees)
        }
        Kind::Image => {
            set_image(bytes, image);
            Ok(Held::Nothing)
        }
        Kind::Whole => {
            whole_image(bytes, image)?;
            Ok(Held::Agrees)
        }
        Kind::Byte => {
            set_byte(noted, image)?;
            Ok(Held::Nothing)
        }
    }
}
