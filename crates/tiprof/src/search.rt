//! A recursive search: in how many ways queens can be placed on a board so that none attacks another.

use crate::method::Method;
use crate::worker::{Spent, Worker};
use std::sync::Wait;

/// The board's width, and the number of queens.
const WIDTH: u32 = 11;

/// How many ways there are on this board.
pub const WAYS: u32 = 2680;

/// The first rows, this many, have a frame each. Those below have none, as inlined code has none.
const FRAMED: u32 = 2;

/// The columns and diagonals of a row that are attacked, as bits.
#[derive(Clone, Copy)]
struct Attacked {
    columns: u32,
    left: u32,
    right: u32,
}

impl Attacked {
    /// Whether no queen attacks this column of the row.
    fn is_free(self, column: u32) -> bool {
        column < WIDTH && ((self.columns | self.left | self.right) >> column) & 1 == 0
    }

    /// What is attacked in the next row, if a queen is in this column.
    fn with(self, column: u32) -> Attacked {
        let queen = if column < WIDTH { 1 << column } else { 0 };
        Attacked {
            columns: self.columns | queen,
            left: ((self.left | queen) << 1) & 0xffff,
            right: (self.right | queen) >> 1,
        }
    }
}

/// How many ways there are to place queens in the `left` rows that are left.
fn place<R: Wait>(rt: &R, worker: &mut Worker, attacked: Attacked, left: u32) -> Result<u32, Spent>
    ensures same { worker.new ≡ worker.old }
{
    if left == 0 {
        return Ok(1);
    }
    let framed = WIDTH.saturating_sub(left) < FRAMED;
    if framed {
        worker.enter(Method::Place)?;
    }
    let mut ways: u32 = 0;
    for column in 0..WIDTH {
        worker.poll(rt);
        if attacked.is_free(column) {
            ways = ways.saturating_add(place(rt, worker, attacked.with(column), left - 1)?);
        }
    }
    if framed {
        worker.leave()?;
    }
    Ok(ways)
}

/// How many ways there are to place as many queens as the board is wide. `Spent` if the thread can go no further.
pub fn search<R: Wait>(rt: &R, worker: &mut Worker) -> Result<u32, Spent>
    ensures same { worker.new ≡ worker.old }
{
    worker.enter(Method::Search)?;
    let none = Attacked {
        columns: 0,
        left: 0,
        right: 0,
    };
    let ways = place(rt, worker, none, WIDTH)?;
    worker.leave()?;
    Ok(ways)
}

ghost use Rattle.std.specs.Prelude.{◌≡◌};
