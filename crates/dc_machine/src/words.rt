// Words of the frame.
ghost use Rattle.std.specs.Prelude.{◌≡◌, ◌+◌, ◌-◌, ◌<◌, ◌≤◌, ◌^◌, ◌++◌, [], ◌∷◌, length, take, drop, replicate, slice_index, slice_set, vec_capacity, IsOk};
ghost use Rattle.dc_code.specs.Blocks.{put};

use dc_types::NoMemory;

/// The word of a slot.
#[inline(always)]
pub fn word_at(words: &[u64], base: usize, slot: u32) -> u64
    requires { base + slot < length words.now }
    ensures { result ≡ slice_index words.now (base + slot) }
{
    words[base + slot as usize]
}

/// Another word in a slot.
#[inline(always)]
pub fn set_word(words: &mut Vec<u64>, base: usize, slot: u32, w: u64)
    requires { base + slot < length words.old.items }
    ensures items { words.new.items ≡ put words.old.items (base + slot) (w ∷ []) }
    ensures capacity { vec_capacity words.new ≡ vec_capacity words.old }
{
    words[base + slot as usize] = w;
}

/// So many words, from one index to another.
#[inline(always)]
pub fn copy_words(words: &mut Vec<u64>, from: usize, to: usize, n: u32)
    requires from_there { from + n ≤ length words.old.items }
    requires to_there { to + n ≤ length words.old.items }
    ensures items { words.new.items ≡ put words.old.items to (take n (drop from words.old.items)) }
    ensures capacity { vec_capacity words.new ≡ vec_capacity words.old }
{
    if n == 1 {
        let w = words[from];
        words[to] = w;
    } else {
        words.copy_within(from..from + n as usize, to);
    }
}

/// A new frame behind the words: words from an index on, and zeros up to the weight.
pub fn push_frame(
    words: &mut Vec<u64>,
    from: usize,
    params: u32,
    weight: u32,
) -> Result<(), NoMemory>
    requires from_there { from + params ≤ length words.old.items }
    requires fits { params ≤ weight }
    requires room { length words.old.items + weight ≤ vec_capacity words.old }
    ensures ok { IsOk result }
    ensures items { words.new.items ≡ words.old.items ++ (take params (drop from words.old.items) ++ replicate (weight - params) 0) }
    ensures capacity { vec_capacity words.old ≤ vec_capacity words.new }
{
    let len = words.len();
    words.extend_from_within(from..from + params as usize)?;
    words.resize(len + weight as usize, 0)?;
    Ok(())
}

/// The last frame goes, and so many of its words, from an index on, go to another index before it.
pub fn pop_frame(words: &mut Vec<u64>, base: usize, from: usize, to: usize, n: u32)
    requires there { base ≤ length words.old.items }
    requires from_there { from + n ≤ length words.old.items }
    requires to_there { to + n ≤ base }
    ensures items { words.new.items ≡ put (take base words.old.items) to (take n (drop from words.old.items)) }
    ensures capacity { vec_capacity words.new ≡ vec_capacity words.old }
{
    copy_words(words, from, to, n);
    words.truncate(base);
}
