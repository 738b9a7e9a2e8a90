// One word for an id: a bit for each holder.
ghost use Rattle.std.specs.Prelude.{◌≡◌, ◌<◌, nat_eq};
ghost use Rattle.std.specs.Int.{bit_at};
ghost use Rattle.gr_hold.specs.Words.{IsWritten, bits_below};

/// So many holders there are: the work list, the result list, and actors 0 to 8.
pub(crate) const HOLDERS: u32 = 11;

/// Whether the bit is set.
pub(crate) fn has_bit(word: u16, bit: u32) -> bool
    requires { bit < 11 }
    ensures { result ≡ nat_eq (bit_at word bit) 1 }
{
    word >> bit & 1 == 1
}

/// The word with this bit set too.
pub(crate) fn with_bit(word: u16, bit: u32) -> u16
    requires { bit < 11 }
    ensures { IsWritten word result bit 1 }
{
    word | 1 << bit
}

/// The word without this bit.
pub(crate) fn without_bit(word: u16, bit: u32) -> u16
    requires { bit < 11 }
    ensures { IsWritten word result bit 0 }
{
    word & !(1 << bit)
}

/// How many bits are set.
pub(crate) fn count_bits(word: u16) -> u32
    ensures { result ≡ bits_below word 11 }
{
    let mut count = 0;
    for bit in 0..HOLDERS {
        if has_bit(word, bit) {
            count += 1;
        }
    }
    count
}
