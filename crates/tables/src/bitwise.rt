// The bits of a table entry, from bit 0, the least: read, set and cleared, every other bit as it was.
// Each function asks that k is below 16: a type of such numbers would be no plainer, since a caller has k from a remainder or a test, which says so.
ghost use Rattle.std.specs.Prelude.{◌≡◌, ◌<◌};
ghost use Rattle.tables.specs.Bits.{has_bit, with_bit, without_bit};

#[tactic(auto, unfolding(crate::specs::Bits::has_bit))]
pub fn has_bit(entry: u16, k: u8) -> bool
    requires { k < 16 }
    ensures { result ≡ has_bit k entry }
{
    (entry >> k) % 2 == 1
}

#[tactic(auto, using(crate::proofs::BitLaws::weight_room, crate::proofs::BitLaws::one_shift), unfolding(crate::specs::Bits::with_bit))]
pub fn with_bit(entry: u16, k: u8) -> u16
    requires { k < 16 }
    ensures { result ≡ with_bit k entry }
{
    if has_bit(entry, k) {
        return entry;
    }
    entry + (1 << k)
}

#[tactic(auto, using(crate::proofs::BitLaws::weight_below, crate::proofs::BitLaws::one_shift), unfolding(crate::specs::Bits::without_bit))]
pub fn without_bit(entry: u16, k: u8) -> u16
    requires { k < 16 }
    ensures { result ≡ without_bit k entry }
{
    if has_bit(entry, k) {
        return entry - (1 << k);
    }
    entry
}
