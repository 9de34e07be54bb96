//! How many blocks wait with each number.

ghost use Rattle.std.specs.Prelude.{◌≡◌, ◌<◌, ◌+◌, ◌^◌, ℕ, IsTrue, filter, nat_lt, OnOk, OnErr, if◌then◌else◌};
ghost use Rattle.wait_room.specs.Numbers.{number_at, numbered_in, same_num};
ghost use Rattle.wait_room.specs.Rooms.{slips_of};

use crate::waiters::Waiter;
use std::alloc::AllocError;
use std::collections::BTreeMap;

/// How many blocks wait with the number.
pub fn count_number(numbers: &BTreeMap<u64, u64>, num: u64) -> u64
    ensures { result ≡ number_at numbers.now num }
{
    match numbers.get(&num) {
        Some(count) => *count,
        None => 0,
    }
}

/// Counts one more block. At an error nothing has changed.
pub fn add_number(numbers: &mut BTreeMap<u64, u64>, num: u64) -> Result<(), AllocError>
    requires { number_at numbers.old num + 1 < 2 ^ 64 }
    ensures ok { OnOk result ((n : ℕ) → number_at numbers.new n
        ≡ number_at numbers.old n + (if same_num num n then 1 else 0)) }
    ensures err { OnErr result ((n : ℕ) → number_at numbers.new n ≡ number_at numbers.old n) }
{
    let count = count_number(numbers, num) + 1;
    let _ = numbers.insert(num, count)?;
    Ok(())
}

/// Counts one block less.
pub fn remove_number(numbers: &mut BTreeMap<u64, u64>, num: u64)
    requires { 0 < number_at numbers.old num }
    ensures { (n : ℕ) → number_at numbers.old n
        ≡ number_at numbers.new n + (if same_num num n then 1 else 0) }
{
    if count_number(numbers, num) == 1 {
        let _ = numbers.remove(&num);
        return;
    }
    if let Some(count) = numbers.get_mut(&num) {
        *count -= 1;
    }
}

/// Whether each number is above this one.
pub fn all_above(numbers: &BTreeMap<u64, u64>, num: u64) -> bool
    ensures { IsTrue result → (n : ℕ) → 0 < number_at numbers.now n → num < n }
{
    match numbers.first_key_value() {
        Some((first, _)) => num < *first,
        None => true,
    }
}

/// Counts the blocks with a number of at most `num` off.
pub fn drop_numbers(numbers: &mut BTreeMap<u64, u64>, waiters: &[Waiter], num: u64)
    requires { (n : ℕ) → number_at numbers.old n ≡ numbered_in (slips_of waiters.now) n }
    ensures { (n : ℕ) → number_at numbers.new n
        ≡ numbered_in (filter (λ s. nat_lt num s.num) (slips_of waiters.now)) n }
{
    for waiter in waiters {
        if waiter.slip.num <= num {
            remove_number(numbers, waiter.slip.num);
        }
    }
}
