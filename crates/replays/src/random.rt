// Numbers drawn at random from a seed, the number of what they are for, and an index: the same in every run.

pub(crate) fn scrambled(x: u64) -> u64 {
    let a = x ^ (x << 13);
    let b = a ^ (a >> 7);
    b ^ (b << 17)
}

fn mixed(x: u64) -> u64 {
    let a = scrambled(x.wrapping_add(0x9e37_79b9_7f4a_7c15));
    scrambled(a.wrapping_add(0xbf58_476d_1ce4_e5b9))
}

pub(crate) fn drawn(seed: u64, purpose: u64, i: usize) -> u64 {
    let stream = mixed(mixed(seed).wrapping_add(purpose));
    mixed(stream.wrapping_add(i as u64))
}

// ---- the last bits of a number

pub(crate) fn low8(x: u64) -> u8 {
    (x % 256) as u8
}

pub(crate) fn low16(x: u64) -> u16 {
    (x % 65536) as u16
}

pub(crate) fn low32(x: u64) -> u32 {
    (x % 4294967296) as u32
}
