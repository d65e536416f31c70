// Numbers as points.
ghost use Rattle.std.specs.Prelude.{◌≡◌, IsTrue};
ghost use Rattle.std.specs.Ordering.{int_cmp};
ghost use Rattle.cite_schema.specs.Values.{is_number};
ghost use Rattle.interval_normal.specs.Points.{number_after, least_number, number_line_total, number_exact, number_least, least_number_valid, number_next};

use crate::point::Point;
use cite_schema::NoMemory;
use std::alloc::Global;
use std::cmp::Ordering;

impl Point for i64 {
    ghost valid = { λ z. IsTrue (is_number z) };

    ghost cmp = { int_cmp };

    ghost bottom = { least_number };

    ghost next = { number_after };

    fn compare(&self, other: &i64) -> Ordering {
        // A number behind a reference is known to be in the range of its type once it is read.
        let _left = *self;
        let _right = *other;
        self.cmp(other)
    }

    fn least(_alloc: Global) -> Result<i64, NoMemory> {
        Ok(i64::MIN)
    }

    fn after(&self, _alloc: Global) -> Result<Option<i64>, NoMemory> {
        let number = *self;
        if number == i64::MAX {
            Ok(None)
        } else {
            Ok(Some(number + 1))
        }
    }

    fn copy(&self, _alloc: Global) -> Result<i64, NoMemory> {
        let number = *self;
        Ok(number)
    }

    ghost total = { number_line_total };

    ghost exact = { number_exact };

    ghost next_is = { number_next };

    ghost bottom_valid = { least_number_valid };

    ghost from_bottom = { number_least };
}
