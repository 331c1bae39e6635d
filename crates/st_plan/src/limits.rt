//! The values of options as numbers.

ghost use Rattle.std.specs.Prelude.{◌≡◌, ℕ, MatchOption, option_map};
ghost use Rattle.st_plan.specs.Plans.{IsNumber, IsLimit, IsSize, IsBlocks, IsPairs, IsCount};

use st_block::{MAX_BLOCKS, is_block_size};

/// The size of a block in bytes, if no option sets it. Source: docs/FORMAT.md, "Command line".
pub const DEFAULT_SIZE: u32 = 1_048_576;

/// How many blocks a block file has at most, if no option sets it. Source: docs/FORMAT.md,
/// "Command line".
pub const DEFAULT_BLOCKS: u32 = 64;

/// How many pairs a spool keeps at most, if no option sets it. Source: docs/FORMAT.md, "Command
/// line".
pub const DEFAULT_PAIRS: u32 = 4_096;

/// The greatest number of pairs that an option may set. Source: docs/FORMAT.md, "Command line".
pub const MAX_PAIRS: u32 = 65_535;

/// The greatest number of packets that a drill makes. Source: docs/FORMAT.md, "Command line".
pub const MAX_PACKETS: u32 = 1_000_000;

/// How many digits a number has at most.
const MAX_DIGITS: usize = 10;

// The number below 2^32 that one to ten decimal digits write, leading zeros among them.
fn number(word: &str) -> Option<u32>
    ensures { MatchOption result ((n : ℕ) → IsNumber word.now n → ⊥) (λ n. IsNumber word.now n) }
{
    if word.len() > MAX_DIGITS || word.starts_with('+') {
        return None;
    }
    match word.parse::<u32>() {
        Ok(number) => Some(number),
        Err(_) => None,
    }
}

/// The limit that the value of an option sets.
pub fn limit(value: Option<&str>) -> Option<u64>
    ensures { MatchOption result
        ((n : ℕ) → IsLimit (option_map (λ s. s.now) value.entry) n → ⊥)
        (λ n. IsLimit (option_map (λ s. s.now) value.entry) n) }
{
    match value {
        None => Some(u64::MAX),
        Some(word) => match number(word) {
            Some(number) => Some(u64::from(number)),
            None => None,
        },
    }
}

/// The block size in bytes that the value of an option sets.
pub fn block_size(value: Option<&str>) -> Option<u32>
    ensures { MatchOption result
        ((n : ℕ) → IsSize (option_map (λ s. s.now) value.entry) n → ⊥)
        (λ n. IsSize (option_map (λ s. s.now) value.entry) n) }
{
    match value {
        None => Some(DEFAULT_SIZE),
        Some(word) => match number(word) {
            Some(size) => {
                if is_block_size(size) {
                    Some(size)
                } else {
                    None
                }
            }
            None => None,
        },
    }
}

/// The number of blocks that the value of an option sets.
pub fn block_count(value: Option<&str>) -> Option<u32>
    ensures { MatchOption result
        ((n : ℕ) → IsBlocks (option_map (λ s. s.now) value.entry) n → ⊥)
        (λ n. IsBlocks (option_map (λ s. s.now) value.entry) n) }
{
    match value {
        None => Some(DEFAULT_BLOCKS),
        Some(word) => match number(word) {
            Some(blocks) => {
                if 1 <= blocks && blocks <= MAX_BLOCKS {
                    Some(blocks)
                } else {
                    None
                }
            }
            None => None,
        },
    }
}

/// The number of pairs that the value of an option sets.
pub fn pair_limit(value: Option<&str>) -> Option<u32>
    ensures { MatchOption result
        ((n : ℕ) → IsPairs (option_map (λ s. s.now) value.entry) n → ⊥)
        (λ n. IsPairs (option_map (λ s. s.now) value.entry) n) }
{
    match value {
        None => Some(DEFAULT_PAIRS),
        Some(word) => match number(word) {
            Some(pairs) => {
                if 1 <= pairs && pairs <= MAX_PAIRS {
                    Some(pairs)
                } else {
                    None
                }
            }
            None => None,
        },
    }
}

/// The number of packets that an operand asks for.
pub fn packet_count(word: &str) -> Option<u32>
    ensures { MatchOption result ((n : ℕ) → IsCount word.now n → ⊥) (λ n. IsCount word.now n) }
{
    match number(word) {
        Some(packets) => {
            if 1 <= packets && packets <= MAX_PACKETS {
                Some(packets)
            } else {
                None
            }
        }
        None => None,
    }
}
