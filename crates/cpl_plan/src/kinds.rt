ghost use Rattle.std.specs.Prelude.{◌≡◌};
ghost use Rattle.cpl_plan.specs.ExchangeKinds.{exchange_kind, is_implicit};

use crate::parts::{Kind, SchemeKind};

/// The kind of an exchange of a scheme of this kind, by whether it goes to the second of two.
pub fn exchange_kind(scheme: SchemeKind, to_second: bool) -> Kind
    ensures { result ≡ exchange_kind scheme to_second }
{
    match scheme {
        SchemeKind::SerialExplicit if to_second => Kind::Fresh,
        SchemeKind::SerialExplicit | SchemeKind::ParallelExplicit => Kind::Lag,
        SchemeKind::SerialImplicit if to_second => Kind::FreshIter,
        SchemeKind::SerialImplicit | SchemeKind::ParallelImplicit | SchemeKind::Multi =>
            Kind::Iterated,
    }
}

/// Whether a scheme of this kind repeats windows.
pub fn is_implicit(scheme: SchemeKind) -> bool
    ensures { result ≡ is_implicit scheme }
{
    match scheme {
        SchemeKind::SerialExplicit | SchemeKind::ParallelExplicit => false,
        SchemeKind::SerialImplicit | SchemeKind::ParallelImplicit | SchemeKind::Multi => true,
    }
}
