//! Pairs of bodies that something keeps from colliding.

ghost use Rattle.std.specs.Prelude.{◌≡◌, ◌++◌, ◌∷◌, [], List, cond, filter, OnOk};
ghost use Rattle.std.specs.List.{list_any};
ghost use Rattle.std.specs.Result.{IsOkUnless};
ghost use Rattle.contacts_base.specs.declared.body_pair.BodyPair.{BodyPair as TheBodyPair};
ghost use Rattle.contacts_base.specs.Forbidden.{is_forbidden, is_pair_of};
ghost use Rattle.contacts.specs.ByCodes.{is_allowed};
ghost use Rattle.contacts.specs.Pairs.{IsPair, ArePairs};

use contacts_base::Proxy;
use fixed_geom::Refusal;
use std::alloc::Global;

/// Pairs of bodies that may not collide (`pairs`): a pair may stand there more than once. `JointTable` of
/// `world_core_base` implements it, by the joints whose bodies don't collide, and
/// [`ContactTable::collide`](crate::ContactTable::collide) calls it: this crate knows no joints.
pub trait ForbiddenPairs {
    ghost pairs: { Self → List TheBodyPair };

    /// Whether the bodies in two slots are one of the pairs, whichever comes first.
    fn forbids(&self, a: u32, b: u32) -> bool
        ensures { result ≡ list_any (is_pair_of a b) (pairs self.now) };

    /// All of it, to be lent: nothing is left in its place.
    fn taken(&mut self, alloc: Global) -> Self
        ensures { result ≡ self.old };
}

/// Whether the bodies of two shapes are among these pairs.
pub(crate) fn is_forbidden<F: ForbiddenPairs>(forbidden: &F, p: &Proxy, q: &Proxy) -> bool
    ensures { result ≡ is_forbidden (F.pairs forbidden.now) p.now q.now }
{
    forbidden.forbids(p.id.slot, q.id.slot)
}

/// Whether the bodies of the pair of shapes with this code aren't among these pairs.
fn is_allowed<F: ForbiddenPairs>(forbidden: &F, proxies: &[Proxy], code: u64) -> bool
    requires pair { IsPair proxies.now code }
    ensures { result ≡ is_allowed (F.pairs forbidden.now) proxies.now code }
{
    let first = (code / (1 << 32)) as usize;
    let second = (code % (1 << 32)) as usize;
    !is_forbidden(forbidden, &proxies[first], &proxies[second])
}

/// Adds a pair's code, if it is wanted.
fn push_if(codes: &mut Vec<u64>, wanted: bool, code: u64) -> Result<(), Refusal>
    ensures pushed { OnOk result (codes.new.items ≡ codes.old.items ++ cond wanted (code ∷ []) []) }
    ensures memory_only { IsOkUnless result Refusal.NoMemory }
{
    if wanted {
        codes.push(code)?;
    }
    Ok(())
}

/// Fills `allowed` with the codes of those pairs of shapes whose bodies aren't among the forbidden pairs.
pub(crate) fn list_allowed<F: ForbiddenPairs>(
    allowed: &mut Vec<u64>,
    forbidden: &F,
    proxies: &[Proxy],
    codes: &[u64],
) -> Result<(), Refusal>
    requires pairs { ArePairs proxies.now codes.now }
    ensures listed { OnOk result (allowed.new.items ≡ filter (is_allowed (F.pairs forbidden.now) proxies.now) codes.now) }
    ensures memory_only { IsOkUnless result Refusal.NoMemory }
{
    allowed.clear();
    for code in codes {
        push_if(allowed, is_allowed(forbidden, proxies, *code), *code)?;
    }
    Ok(())
}
