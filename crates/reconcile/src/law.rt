//! What is proved of engines and stops with no call around them.
ghost use Rattle.reconcile.specs.Laws.{IsEngineLaw};

/// What whatever a stop leaves opens to: at rest, at each point of the calls that write an input, and behind them.
pub fn engine_law()
    ensures { IsEngineLaw }
{}
