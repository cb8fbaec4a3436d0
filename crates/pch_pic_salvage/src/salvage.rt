// A damaged trace salvaged: its contents are tested, its blocks looked at, and what is left is written where there is room for all of it.
// What is refused changes nothing.
ghost use Rattle.std.specs.Prelude.{◌≡◌};
ghost use Rattle.traces.specs.salvages.Salvaging.{salvage_ending};
ghost use Rattle.pch_pic_salvage.specs.salvage.Ends.{ends};

use crate::rebuilt::{put_blocks, put_contents, put_list};
use crate::torn::{count, survey};
use answer::Told;
use answer::refusals::Refusal;
use trace::blocks::two_at;
use trace::contents::contents_of;
use trace::record_bytes::LENGTH;

pub fn salvage(trace: &[u8], second: &mut [u8], list: &mut [u8]) -> Told
    ensures { ends result second.new list.new
        ≡ salvage_ending trace.now second.old list.old }
{
    contents_of(trace).ok_or(Refusal::TraceContents)?;
    let blocks = two_at(trace, 0);
    let bads = survey(trace, blocks);
    let left = count(trace, blocks, &bads);
    let kept = left.blocks;
    if kept == 0 {
        return Err(Refusal::NothingLeft);
    }
    let start = 2 + 4 * kept;
    let length = start + LENGTH * left.records;
    if second.len() < length {
        return Err(Refusal::NoRoom);
    }
    if list.len() < 4 * (blocks - kept) {
        return Err(Refusal::NoRoom);
    }
    put_contents(trace, blocks, &bads, kept, second);
    put_blocks(trace, blocks, &bads, &mut second[start..]);
    put_list(trace, blocks, &bads, list);
    Ok(Some(length as u64))
}
