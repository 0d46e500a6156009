// Truths that are lent as bytes: 1 for true, 0 for false. A byte above 1 is no flag. And numbers that are handed in wide.
#![tactic(auto)]

ghost use Rattle.std.specs.Prelude.{◌≡◌, length};
ghost use Rattle.flag_bytes.specs.Flags.{are_flags, flags_of, bytes_of};
ghost use Rattle.flag_bytes.specs.Narrow.{kind_byte, limit_word};

/// Is each byte a flag, 0 or 1?
#[tactic(auto, unfolding(crate::specs::Flags::are_flags))]
pub fn are_flags(bytes: &[u8]) -> bool
    ensures { result ≡ are_flags bytes.now }
{
    // Kept: a loop to the end and no `all`, which stops early, so that the compiler takes several bytes at a time; every call of C makes this test.
    let mut all = true;
    for byte in bytes {
        all &= *byte <= 1;
    }
    all
}

// Puts the truths of a column of bytes. Kept, here and below: places are filled one by one, since `map` over an array of any length left goals on its length open.
#[tactic(auto, unfolding(crate::specs::Flags::flags_of))]
fn put_truths(bytes: &[u8], truths: &mut [bool])
    requires { length truths.old ≡ length bytes.now }
    ensures { truths.new ≡ flags_of bytes.now }
{
    for (i, byte) in bytes.iter().enumerate() {
        truths[i] = *byte == 1;
    }
}

// Puts the bytes of a column of truths.
#[tactic(auto, unfolding(crate::specs::Flags::bytes_of))]
fn put_bytes(truths: &[bool], bytes: &mut [u8])
    requires { length bytes.old ≡ length truths.now }
    ensures { bytes.new ≡ bytes_of truths.now }
{
    for (i, truth) in truths.iter().enumerate() {
        bytes[i] = u8::from(*truth);
    }
}

/// The truths of bytes: 1 is true, any other is not.
pub fn truths<const N: usize>(bytes: &[u8; N]) -> [bool; N]
    ensures { result ≡ flags_of bytes.now }
{
    let mut truths = [false; N];
    put_truths(bytes, &mut truths);
    truths
}

/// The bytes of truths: 1 for true, 0 for false.
pub fn bytes_of<const N: usize>(truths: &[bool; N]) -> [u8; N]
    ensures { result ≡ bytes_of truths.now }
{
    let mut bytes = [0; N];
    put_bytes(truths, &mut bytes);
    bytes
}

// Kept, here and below: a function with a name, since the contracts of the calls of other languages speak of its definition.
/// A step's kind in a byte: 0, which is no kind, where it does not fit.
pub fn kind_byte(kind: usize) -> u8
    ensures { result ≡ kind_byte kind }
{
    u8::try_from(kind).unwrap_or(0)
}

/// A driver's limit in 32 bits: the greatest number of 32 bits where it does not fit.
pub fn limit_word(limit: usize) -> u32
    ensures { result ≡ limit_word limit }
{
    u32::try_from(limit).unwrap_or(u32::MAX)
}
