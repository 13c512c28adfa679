// The laws of layouts. Each function does nothing when it is called: its contract is the law.
ghost use Rattle.om_layout.specs.InOrder.{OrdersPlaceWords};
ghost use Rattle.om_layout.specs.Laws.{LayoutsPlaceWords, RunsPlaceWords};
ghost use Rattle.om_layout.specs.Limits.{LayoutsStayInLimits};

/// The layout of a graph places the graph's words one to one, each word that goes on before what it goes on to.
pub fn layouts_place_words()
    ensures { LayoutsPlaceWords }
{}

/// So do runs of words, whatever their order.
pub fn runs_place_words()
    ensures { RunsPlaceWords }
{}

/// A layout in any order of runs gives an encoder what the natural one gives.
pub fn orders_place_words()
    ensures { OrdersPlaceWords }
{}

/// Where a program is within the limits of a link, so is every layout of its graphs.
pub fn layouts_stay_in_limits()
    ensures { LayoutsStayInLimits }
{}
