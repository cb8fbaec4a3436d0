// The calls of `pch_pic_board` for C. A crate is a library for other crates or for C: this is the one for C, and says word for word what that one says.
#![tactic(auto)]

ghost use Rattle.std.specs.Prelude.{◌≡◌, []};
ghost use Rattle.calls.specs.Calls as asked;
ghost use Rattle.boards.specs.Boarding.{board_leaves, boarding, hears, hearing};

#[unsafe(no_mangle)]
pub extern "C" fn pch_pic_board_reset(image: &mut [u8], board: &mut [u8], answer: &mut [u8]) -> u8
    ensures { board_leaves result image.new board.new answer.new []
        ≡ boarding asked.reset image.old board.old answer.old }
{
    pch_pic_board::pch_pic_board_reset(image, board, answer)
}

#[unsafe(no_mangle)]
pub extern "C" fn pch_pic_board_read(
    image: &[u8],
    board: &mut [u8],
    base: u64,
    size: u64,
    address: u64,
    width: u64,
    answer: &mut [u8],
) -> u8
    ensures { board_leaves result image.now board.new answer.new []
        ≡ boarding (asked.read base size address width) image.now board.old answer.old }
{
    pch_pic_board::pch_pic_board_read(&*image, board, base, size, address, width, answer)
}

#[unsafe(no_mangle)]
pub extern "C" fn pch_pic_board_write(
    image: &mut [u8],
    board: &mut [u8],
    base: u64,
    size: u64,
    address: u64,
    width: u64,
    value: u64,
    answer: &mut [u8],
) -> u8
    ensures { board_leaves result image.new board.new answer.new []
        ≡ boarding (asked.write base size address width value) image.old board.old answer.old }
{
    pch_pic_board::pch_pic_board_write(image, board, base, size, address, width, value, answer)
}

#[unsafe(no_mangle)]
pub extern "C" fn pch_pic_board_level(
    image: &mut [u8],
    board: &mut [u8],
    input: u64,
    level: u64,
    answer: &mut [u8],
) -> u8
    ensures { board_leaves result image.new board.new answer.new []
        ≡ boarding (asked.level input level) image.old board.old answer.old }
{
    pch_pic_board::pch_pic_board_level(image, board, input, level, answer)
}

#[unsafe(no_mangle)]
pub extern "C" fn pch_pic_board_poll(
    image: &mut [u8],
    board: &mut [u8],
    input: u64,
    answer: &mut [u8],
) -> u8
    ensures { board_leaves result image.new board.new answer.new []
        ≡ boarding (asked.poll input) image.old board.old answer.old }
{
    pch_pic_board::pch_pic_board_poll(image, board, input, answer)
}

#[unsafe(no_mangle)]
pub extern "C" fn pch_pic_board_drain(
    image: &mut [u8],
    board: &mut [u8],
    events: &mut [u8],
    place: usize,
    answer: &mut [u8],
) -> u8
    ensures { board_leaves result image.new board.new answer.new events.new
        ≡ boarding (asked.drain events.old place) image.old board.old answer.old }
{
    pch_pic_board::pch_pic_board_drain(image, board, events, place, answer)
}

#[unsafe(no_mangle)]
pub extern "C" fn pch_pic_board_event(
    board: &mut [u8],
    vector: u8,
    flag: u8,
    answer: &mut [u8],
) -> u8
    ensures { hears result board.new answer.new ≡ hearing board.old vector flag answer.old }
{
    pch_pic_board::pch_pic_board_event(board, vector, flag, answer)
}
