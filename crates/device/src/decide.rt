// Which inputs a step meets, as numbers: those of a set that wait or are in service, and those that a new half of MASK unmasks or masks.
// A state by value and an image in place are moved by these same leaves.
ghost use Rattle.std.specs.Prelude.{◌≡◌, ℕ, ◌<◌};
ghost use Rattle.basics.specs.Inputs.{on, register, with_half};
ghost use Rattle.rules.specs.Lines.{newly_unmasked, newly_masked};
ghost use Rattle.device.specs.decide.Sets.{waiting_of, served_of};

// The inputs of a set that are latched, unmasked and not in service.
pub fn pending(set: u64, irr: u64, mask: u64, isr: u64) -> u64
    ensures { result ≡ register (waiting_of set irr mask isr) }
{
    set & irr & !mask & !isr
}

// The inputs of a set that are in service.
pub fn served(set: u64, isr: u64) -> u64
    ensures { result ≡ register (served_of set isr) }
{
    isr & set
}

// The inputs that are in old and, once the half is val, no longer.
pub fn newly_unmasked(old: u64, val: u32, high: bool) -> u64
    ensures { (i : ℕ) → i < 64 → on result i ≡ newly_unmasked old (with_half high old val) i }
{
    let old_part = bits::half(old, high);
    bits::in_half(old_part & !val, high)
}

// The inputs that are not in old and, once the half is val, are.
pub fn newly_masked(old: u64, val: u32, high: bool) -> u64
    ensures { (i : ℕ) → i < 64 → on result i ≡ newly_masked old (with_half high old val) i }
{
    let old_part = bits::half(old, high);
    bits::in_half(!old_part & val, high)
}
