//! How a seat is split off from the owner's, and how it is joined again.
ghost use Rattle.bench_rule.specs.Views.{with_seat_out, worker_view, with_joined, spent_view};

use crate::views::View;
use atomic_table::{Join, Split};

/// The owner's seat gives a worker one of its own.
pub(crate) struct SplitOff;

impl Split<View> for SplitOff {
    ghost left = { with_seat_out };

    ghost right = { λ view. worker_view view.setting };
}

/// The owner's seat takes in what a worker's seat knows.
pub(crate) struct TakeIn;

impl Join<View> for TakeIn {
    ghost both = { with_joined };

    ghost spent = { spent_view };
}
