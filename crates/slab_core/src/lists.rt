ghost use Rattle.std.specs.Prelude.{◌≡◌, ◌-◌, ◌≤◌, [], ◌∷◌, ◌++◌, OnErr, OnOk};
ghost use Rattle.std.specs.List.{range_with_len};
ghost use Rattle.list_words.specs.Words.{has, has_all, joined, without};

use st_base::NoMemory;

/// Appends a value.
pub(crate) fn push<T: Drop>(list: &mut Vec<T>, value: T) -> Result<(), NoMemory>
    ensures ok { OnOk result (list.new.items ≡ list.old.items ++ value ∷ []) }
    ensures err { OnErr result (list.new.items ≡ list.old.items) }
{
    match list.push(value) {
        Ok(()) => Ok(()),
        Err(_) => Err(NoMemory),
    }
}

/// Whether a number stands in the list.
pub(crate) fn has(list: &[u32], value: u32) -> bool
    ensures { result ≡ has value list.now }
{
    list.contains(&value)
}

/// Appends a number where it isn't there.
pub(crate) fn join(list: &mut Vec<u32>, value: u32) -> Result<(), NoMemory>
    ensures ok { OnOk result (list.new.items ≡ joined value list.old.items) }
    ensures err { OnErr result (list.new.items ≡ list.old.items) }
{
    if has(list.as_slice(), value) {
        return Ok(());
    }
    push(list, value)
}

/// Takes a number out, each time that it is there.
pub(crate) fn leave(list: &mut Vec<u32>, value: u32)
    ensures { list.new.items ≡ without value list.old.items }
{
    list.retain(|x| *x != value);
}

/// Whether all numbers from `from` on and below `to` stand in the list.
pub(crate) fn has_range(list: &[u32], from: u32, to: u32) -> bool
    requires { from ≤ to }
    ensures { result ≡ has_all (range_with_len from (to - from)) list.now }
{
    for value in from..to {
        if !has(list, value) {
            return false;
        }
    }
    true
}

/// Whether each of these stands in the list.
pub(crate) fn has_each(list: &[u32], values: &[u32]) -> bool
    ensures { result ≡ has_all values.now list.now }
{
    for value in values {
        if !has(list, *value) {
            return false;
        }
    }
    true
}
