ghost use Rattle.std.specs.Prelude.{◌≡◌, ◌≤◌, ◌↔◌, true, IsTrue, pos, ◌*ℤ◌};
ghost use Rattle.std.specs.Int.RustNames.{unsigned_abs};
ghost use Rattle.rv64_decode.specs.Area.{bytes_of};
ghost use Rattle.linear_forms.specs.Forms.{is_small};
ghost use Rattle.distance_vectors.specs.Distances.{address_at, ShareByte, MeetsAfter, MeetAt};
ghost use Rattle.distance_vectors.specs.Searching.{IsAdvance, IsAddress};

use linear_forms::Form;
use loop_data::Access;
use rv64_decode::Width;

/// A stride times an entry of a vector.
fn advance(stride: i64, entry: i64) -> i64
    requires stride { is_small stride ≡ true }
    requires entry { unsigned_abs entry ≤ 15 }
    ensures value { result ≡ stride *ℤ entry }
    ensures range { IsAdvance result }
{
    stride * entry
}

/// The address in the turn of a vector, where the terms are left out.
fn address_at(form: &Form, root: i64, second: i64, third: i64) -> i64
    requires root { unsigned_abs root ≤ 15 }
    requires second { unsigned_abs second ≤ 15 }
    requires third { unsigned_abs third ≤ 15 }
    ensures value { result ≡ address_at form.now (record { root = root; second = second; third = third }) }
    ensures range { IsAddress result }
{
    let first = advance(form.turns[0], root);
    let inner = advance(form.turns[1], second);
    let innermost = advance(form.turns[2], third);
    form.constant + (first + (inner + innermost))
}

/// The address at zero turns, where the terms are left out.
fn start_of(form: &Form) -> i64
    ensures value { result ≡ form.now.constant }
    ensures range { IsAddress result }
{
    form.constant
}

/// How many bytes an access moves.
fn size_of(width: Width) -> i64
    ensures { result ≡ pos (bytes_of width) }
{
    match width {
        Width::One => 1,
        Width::Two => 2,
        Width::Four => 4,
        Width::Eight => 8,
    }
}

/// Whether so many bytes from one address on and so many from another have one in common.
fn share_byte(one: i64, width: Width, other: i64, other_width: Width) -> bool
    requires one { IsAddress one }
    requires other { IsAddress other }
    ensures { IsTrue result ↔ ShareByte one (bytes_of width) other (bytes_of other_width) }
{
    one < other + size_of(other_width) && other < one + size_of(width)
}

/// Whether the later access, in the turn of a vector after the earlier one's, has a byte in common with it.
fn meets_after(earlier: &Access, later: &Access, root: i64, second: i64, third: i64) -> bool
    requires root { unsigned_abs root ≤ 15 }
    requires second { unsigned_abs second ≤ 15 }
    requires third { unsigned_abs third ≤ 15 }
    ensures { IsTrue result ↔ MeetsAfter earlier.now later.now
        (record { root = root; second = second; third = third }) }
{
    let start = start_of(&earlier.form);
    let address = address_at(&later.form, root, second, third);
    share_byte(start, earlier.width, address, later.width)
}

/// Whether one of two accesses, in the turn of a vector after the other's, has a byte in common with it.
pub(crate) fn meet_at(a: &Access, b: &Access, root: i64, second: i64, third: i64) -> bool
    requires root { unsigned_abs root ≤ 15 }
    requires second { unsigned_abs second ≤ 15 }
    requires third { unsigned_abs third ≤ 15 }
    ensures { IsTrue result ↔ MeetAt a.now b.now (record { root = root; second = second; third = third }) }
{
    meets_after(a, b, root, second, third) || meets_after(b, a, root, second, third)
}
