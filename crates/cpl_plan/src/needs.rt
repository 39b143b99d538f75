ghost use Rattle.std.specs.Prelude.{◌≡◌, ◌≤◌, ◌&&◌, not, nat_eq, slice_get};
ghost use Rattle.cpl_plan.specs.Needs.{asked, is_second, needs_in, needs_of, partners};
ghost use Rattle.cpl_plan.specs.PlanWords.{is_among};
ghost use Rattle.cpl_plan.specs.Looks.{IsLook};

use crate::parts::{Scheme, SchemeKind};
use crate::words::{Item, Need};
use plan_order::PartId;

/// What is at a place of a list that is looked through.
#[derive(Clone, Copy, Debug, PartialEq, Eq)]
pub enum Look<T> {
    /// The item there.
    Here(T),
    /// The list is shorter: the place counts so many items past it.
    Past(u32),
}

/// The `i`-th need of participant `p` among those for the sake of these schemes.
pub(crate) fn need_at(
    schemes: &[Scheme],
    parts: u32,
    p: PartId,
    i: u32,
    w: u32,
    k: u32,
) -> Option<Need>
    requires { 1 ≤ w }
    ensures { result ≡ slice_get (needs_of schemes.now parts p w k) i }
{
    let mut left = i;
    for scheme in schemes {
        match need_in(scheme, parts, p, left, w, k) {
            Look::Here(need) => return Some(need),
            Look::Past(rest) => left = rest,
        }
    }
    None
}

/// The need of participant `p` at a place among those for the sake of a scheme.
fn need_in(scheme: &Scheme, parts: u32, p: PartId, place: u32, w: u32, k: u32) -> Look<Need>
    requires { 1 ≤ w }
    ensures { IsLook (needs_in scheme.now parts p w k) place result }
{
    if !scheme.members.as_slice().contains(&p) {
        return Look::Past(place);
    }
    match partner(scheme.members.as_slice(), parts, p, place) {
        Look::Here(owner) => Look::Here(Need {
            owner,
            item: item_of(scheme.kind, is_second(scheme, p), w, k),
        }),
        Look::Past(rest) => Look::Past(rest),
    }
}

/// The partner of participant `p` at a place.
fn partner(members: &[PartId], parts: u32, p: PartId, place: u32) -> Look<PartId>
    ensures { IsLook (partners members.now parts p) place result }
{
    let mut left = place;
    for other in 0..parts {
        if is_partner(members, p, other) {
            if left == 0 {
                return Look::Here(other);
            }
            left -= 1;
        }
    }
    Look::Past(left)
}

/// Whether `other` is a member beside `p`.
fn is_partner(members: &[PartId], p: PartId, other: PartId) -> bool
    ensures { result ≡ (not (nat_eq other p) && is_among other members.now) }
{
    other != p && members.contains(&other)
}

/// Whether participant `p` is the second of a scheme of two.
fn is_second(scheme: &Scheme, p: PartId) -> bool
    ensures { result ≡ is_second scheme.now p }
{
    scheme.members.as_slice().get(1) == Some(&p)
}

/// What a member asks of each partner.
fn item_of(kind: SchemeKind, is_second: bool, w: u32, k: u32) -> Item
    requires { 1 ≤ w }
    ensures { result ≡ asked kind is_second w k }
{
    match kind {
        SchemeKind::SerialExplicit if is_second => Item::Completed { window: w },
        SchemeKind::SerialImplicit if is_second => Item::Posted {
            window: w,
            iteration: k,
        },
        _ => Item::Completed { window: w - 1 },
    }
}
