ghost use Rattle.admission.specs.Laws.{SearchFindsTheLeast, HyperperiodIsLeastCommonMultiple, RanksAreApart, OneHyperperiodIsEnough, TestByRankIsExact, TestByDeadlineIsExact};

// Each function below carries a law of the definitions that adoption goes by; it computes nothing.

// What a search finds is the least: a witness is the least time that is enough, and a time that is
// named is the least that fails.
pub fn search_finds_the_least()
    ensures { SearchFindsTheLeast }
{}

// The hyperperiod is the least common multiple of the periods.
pub fn hyperperiod_is_least_common_multiple()
    ensures { HyperperiodIsLeastCommonMultiple }
{}

// No two tasks share a rank.
pub fn ranks_are_apart()
    ensures { RanksAreApart }
{}

// The times of one hyperperiod, together with its load, stand for all times.
pub fn one_hyperperiod_is_enough()
    ensures { OneHyperperiodIsEnough }
{}

// By rank, exactly the tables whose tasks all have witnesses pass.
pub fn test_by_rank_is_exact()
    ensures { TestByRankIsExact }
{}

// By deadline, exactly the tables that have enough within every time pass.
pub fn test_by_deadline_is_exact()
    ensures { TestByDeadlineIsExact }
{}
