//! Masks of addresses that a jail never bans.
ghost use Rattle.std.specs.Prelude.{◌≡◌, ◌∷◌, ◌++◌, [], cond, filter, not, IfOk};
ghost use Rattle.f2b_base.specs.declared.addr.Cidr.{Cidr};
ghost use Rattle.f2b_model.specs.Moves.{same_cidr};
ghost use Rattle.client_replies.specs.Changes.{has_mask};

use f2b_base::{Cidr, NoMemory, Plain, Seq};

fn is_same(one: &Cidr, other: &Cidr) -> bool
    ensures { result ≡ same_cidr one.now other.now }
{
    one.base.same(other.base) && one.bits == other.bits
}

/// Whether a mask is one of these.
pub(crate) fn has_mask(cidr: &Cidr, masks: &[Cidr]) -> bool
    ensures { result ≡ has_mask cidr.now masks.now }
{
    masks.iter().any(|other| is_same(cidr, other))
}

/// The masks with one at their end, unless it is there.
pub(crate) fn masks_with(masks: &Seq<Cidr>, cidr: &Cidr) -> Result<Seq<Cidr>, NoMemory>
    ensures { IfOk result (λ with. with ≡ cond (has_mask cidr.now masks.now) masks.now (masks.now ++ cidr.now ∷ [])) }
{
    if has_mask(cidr, masks.as_slice()) {
        return masks.copy();
    }
    let mut with = masks.copy()?;
    with.push(*cidr)?;
    Ok(with)
}

/// Takes out each equal mask.
fn take_out(masks: &mut Seq<Cidr>, cidr: &Cidr)
    ensures { masks.new ≡ filter (λ (other : Cidr). not (same_cidr cidr.now other)) masks.old }
{
    masks.retain(|other| !is_same(cidr, other));
}

/// The masks without each that is equal to one.
pub(crate) fn masks_without(masks: &Seq<Cidr>, cidr: &Cidr) -> Result<Seq<Cidr>, NoMemory>
    ensures { IfOk result (λ without. without ≡ filter (λ (other : Cidr). not (same_cidr cidr.now other)) masks.now) }
{
    let mut without = masks.copy()?;
    take_out(&mut without, cidr);
    Ok(without)
}
