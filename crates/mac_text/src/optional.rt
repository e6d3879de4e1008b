//! Optional values that a reader fills in. Most are None before; the rare way, in which a value is dropped, is kept out of
//! line.

ghost use Rattle.std.specs.Prelude.{◌≡◌, Some, None};

/// Sets `out` to None.
pub fn clear<T: Drop>(out: &mut Option<T>)
    ensures { out.new ≡ None }
{
    if out.is_some() {
        empty(out);
    }
}

#[inline(never)]
fn empty<T: Drop>(out: &mut Option<T>)
    ensures { out.new ≡ None }
{
    *out = None;
}

/// Sets `out` to this value.
pub fn fill<T: Drop>(out: &mut Option<T>, value: T)
    ensures { out.new ≡ Some value }
{
    if out.is_none() {
        *out = Some(value);
    } else {
        replace(out, value);
    }
}

#[inline(never)]
fn replace<T: Drop>(out: &mut Option<T>, value: T)
    ensures { out.new ≡ Some value }
{
    *out = Some(value);
}

/// Drops a value.
pub fn discard<T: Drop>(_value: T) {}
