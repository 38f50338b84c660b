// Rows and running records as plain numbers.
ghost use Rattle.std.specs.Prelude.{◌≡◌, ◌≢◌, [], ◌∷◌, MatchResult, get_or, length};
ghost use Rattle.meanings.specs.Estimate.{fields};
ghost use Rattle.meanings.specs.declared.Report.TheVariants.{LengthMismatch};

use crate::{Estimate, PowerSums, RECORD_LENGTH, ROW_WIDTH, Refusal, Report, RunningSums};

impl From<Estimate> for [u64; ROW_WIDTH] {
    ghost from_gives = { λ row numbers. numbers ≡ fields row };

    // A row as its numbers.
    fn from(row: Estimate) -> [u64; ROW_WIDTH] {
        [row.left, row.right, row.weight, row.sum, row.value]
    }
}

impl From<RunningSums> for [u64; RECORD_LENGTH] {
    ghost from_gives = { λ r numbers. numbers ≡ r.left ∷ r.right ∷ r.sums.s00 ∷ r.sums.s10 ∷ r.sums.s20 ∷ r.sums.s01 ∷ r.sums.s11 ∷ r.sums.s21 ∷ r.passes ∷ [] };

    // A running record as its numbers.
    fn from(running: RunningSums) -> [u64; RECORD_LENGTH] {
        let sums = running.sums;
        [
            running.left as u64,
            running.right as u64,
            sums.s00,
            sums.s10,
            sums.s20,
            sums.s01,
            sums.s11,
            sums.s21,
            running.passes,
        ]
    }
}

impl TryFrom<&[u64]> for RunningSums {
    type Error = Refusal;

    ghost try_from_gives = { λ xs r. MatchResult r
        (λ s. (length xs.now ≡ 9) × (s ≡ record {
          left = get_or xs.now 0 0;
          right = get_or xs.now 1 0;
          sums = record {
            s00 = get_or xs.now 2 0;
            s10 = get_or xs.now 3 0;
            s20 = get_or xs.now 4 0;
            s01 = get_or xs.now 5 0;
            s11 = get_or xs.now 6 0;
            s21 = get_or xs.now 7 0;
          };
          passes = get_or xs.now 8 0;
        }))
        (λ e. (length xs.now ≢ 9) × (e ≡ record { report = LengthMismatch; place = 0 })) };

    // The running record of these numbers, any that are as many as a record has.
    fn try_from(numbers: &[u64]) -> Result<RunningSums, Refusal> {
        let &[left, right, s00, s10, s20, s01, s11, s21, passes] = numbers else {
            return Err(Report::LengthMismatch.at(0));
        };
        Ok(RunningSums {
            left: left as usize,
            right: right as usize,
            sums: PowerSums {
                s00,
                s10,
                s20,
                s01,
                s11,
                s21,
            },
            passes,
        })
    }
}
