// The constant sheet of thresholds.
ghost use Rattle.std.specs.Prelude.{◌≡◌, ◌<◌};
ghost use Rattle.protocol.specs.Thresholds.{Sound};
ghost use Rattle.plan.specs.Sheet.{row_of, thresholds_of};

use crate::plans::{Plan, Thresholds};

// For n processes, from 1, the row of t = 0. The rows of t = 1, 2 and so on follow it.
const FIRST_ROW: [u8; 16] = [0, 1, 2, 3, 5, 7, 9, 12, 15, 18, 22, 26, 30, 35, 40, 45];

// Echo, ready and accept, for each n and t with 3t < n.
const SHEET: [[u8; 3]; 51] = [
    // n = 1
    [1, 1, 1],
    // n = 2
    [2, 1, 1],
    // n = 3
    [2, 1, 1],
    // n = 4
    [3, 1, 1],
    [3, 2, 3],
    // n = 5
    [3, 1, 1],
    [4, 2, 3],
    // n = 6
    [4, 1, 1],
    [4, 2, 3],
    // n = 7
    [4, 1, 1],
    [5, 2, 3],
    [5, 3, 5],
    // n = 8
    [5, 1, 1],
    [5, 2, 3],
    [6, 3, 5],
    // n = 9
    [5, 1, 1],
    [6, 2, 3],
    [6, 3, 5],
    // n = 10
    [6, 1, 1],
    [6, 2, 3],
    [7, 3, 5],
    [7, 4, 7],
    // n = 11
    [6, 1, 1],
    [7, 2, 3],
    [7, 3, 5],
    [8, 4, 7],
    // n = 12
    [7, 1, 1],
    [7, 2, 3],
    [8, 3, 5],
    [8, 4, 7],
    // n = 13
    [7, 1, 1],
    [8, 2, 3],
    [8, 3, 5],
    [9, 4, 7],
    [9, 5, 9],
    // n = 14
    [8, 1, 1],
    [8, 2, 3],
    [9, 3, 5],
    [9, 4, 7],
    [10, 5, 9],
    // n = 15
    [8, 1, 1],
    [9, 2, 3],
    [9, 3, 5],
    [10, 4, 7],
    [10, 5, 9],
    // n = 16
    [9, 1, 1],
    [9, 2, 3],
    [10, 3, 5],
    [10, 4, 7],
    [11, 5, 9],
    [11, 6, 11],
];

impl Plan {
    /// The plan's row of the sheet.
    pub fn thresholds(&self) -> Thresholds
        ensures value { result ≡ thresholds_of self.now.n self.now.t }
        ensures sound { Sound self.now.n self.now.t result.echo result.ready result.accept }
    {
        let [echo, ready, accept] = &SHEET[self.row()];
        Thresholds {
            echo: *echo,
            ready: *ready,
            accept: *accept,
        }
    }

    // Where the sheet has its thresholds.
    fn row(&self) -> usize
        ensures within { result < 51 }
        ensures value { result ≡ row_of self.now.n self.now.t }
    {
        let first = FIRST_ROW[self.n as usize - 1];
        first as usize + self.t as usize
    }
}
