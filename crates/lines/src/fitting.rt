// The integers of a line, as the types that a call takes.
ghost use Rattle.std.specs.Prelude.{◌≡◌, ◌≤◌, IfSome, length, take};
ghost use Rattle.lines.specs.Fitting.{ListOf, NumberAt};

// Number i of a line, if the line has it and it fits the type.
pub fn number_at<T: TryFrom<i64>>(nums: &[i64], i: usize) -> Option<T>
where
    T::Error: Drop,
    ensures { NumberAt T.try_from_gives nums.now i result }
{
    T::try_from(*nums.get(i)?).ok()
}

// All of them put into the first entries of `out`, if they fit the type and there is room: how many they are.
pub fn number_list<T: TryFrom<i64> + Drop>(nums: &[i64], out: &mut [T]) -> Option<usize>
where
    T::Error: Drop,
    ensures listed { ListOf T.try_from_gives (λ n. take n out.new) nums.now (length out.old) result }
    ensures count { IfSome result (λ n. (n ≡ length nums.now) × (n ≤ length out.new)) }
{
    if out.len() < nums.len() {
        return None;
    }
    for (i, z) in nums.iter().enumerate() {
        out[i] = T::try_from(*z).ok()?;
    }
    Some(nums.len())
}
