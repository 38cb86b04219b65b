// A yearly payment along a population.
use basis::kind::Kind;

// What is paid for each year: a pension once a year, one in instalments, or the widows' pensions that the deaths leave.
#[derive(Clone, Copy, PartialEq, Eq, Debug)]
pub(crate) enum Level {
    Annuities,
    Pensions,
    Widows,
}

// The population is named by the list of its deaths.
#[derive(Clone, Copy)]
pub(crate) struct Stream {
    pub(crate) population: Kind,
    pub(crate) level: Level,
}
