// Who may change or remove a star.
ghost use Rattle.std.specs.Prelude.{◌≡◌};
ghost use Rattle.calls.specs.Calls.{may_alter_lem};

// The institute may, and the star's owner.
#[tactic(auto, unfolding(calls::specs::Calls::may_alter_lem))]
pub fn may_alter(caller: u8, owner: u8) -> bool
    ensures { result ≡ may_alter_lem caller owner }
{
    caller == 0 || caller == owner
}
