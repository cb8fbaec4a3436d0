// The table of the register map: its 1,024 numbers, and that each tells what 01's map says of its offset.
pub mod rows;

ghost use Rattle.table.specs.Meaning.{Agrees};

// The whole table where it stands, which no caller copies.
pub fn lent() -> &'static [[u8; 32]; 32]
    ensures { Agrees result.now }
{
    &rows::TABLE
}

// The whole table. A caller lends it on: an array that is named again is copied again.
pub fn whole() -> [[u8; 32]; 32]
    ensures { Agrees result }
{
    rows::TABLE
}
