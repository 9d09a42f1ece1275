//! What holds of all turns.
ghost use Rattle.session_layer.specs.Turn.{TookIsTurn, IdleIsIdle, LostDidNothing};

/// What a desk did in a turn is a turn of its record.
pub fn took_is_turn()
    ensures { TookIsTurn }
{}

/// Idle is answered for an idle turn alone.
pub fn idle_is_idle()
    ensures { IdleIsIdle }
{}

/// Moved is answered only if nothing but looks was added to the record, and an exchange that was due by what its look saw found another word.
pub fn lost_did_nothing()
    ensures { LostDidNothing }
{}
