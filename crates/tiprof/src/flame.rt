//! A flame graph of folded stacks, as one SVG file.
//!
//! It has a bar for each prefix of stacks, as wide as the stacks that begin with it. At the foot are the workers, if they
//! are kept apart, and the new threads. On them is what the threads did: warm bars are of threads that ran, cool ones of threads in native code
//! or blocked. The methods follow, the oldest first.

use crate::fold::{Fold, Folded};
use crate::method::name_of;
use crate::roots::{Doing, Owner, Part, Roots};
use std::alloc::{AllocError, Global};
use std::fmt::Write;
use ti_types::MethodNo;

/// The picture's width, in hundredths of a unit.
const WIDTH: u64 = 120_000;

/// A bar's height, in units.
const HEIGHT: u64 = 20;

/// The hue of the bars of workers and new threads.
const GREEN: u32 = 100;

/// The methods of a stack, the oldest first, and how often the stack was seen.
type Row = (Vec<u32>, u64);

/// The row of a stack.
fn row_of(alloc: Global, folded: &Folded) -> Result<Row, AllocError> {
    let mut path = Vec::with_capacity(alloc, folded.methods().len())?;
    for method in folded.methods().iter().rev() {
        path.push(method.0)?;
    }
    Ok((path, folded.count()))
}

/// All rows of a fold in order, so that those with the same first methods come together.
fn rows_of(alloc: Global, fold: &Fold) -> Result<Vec<Row>, AllocError> {
    let mut rows = Vec::new(alloc);
    for folded in fold.stacks() {
        rows.push(row_of(alloc, folded)?)?;
    }
    rows.sort()?;
    Ok(rows)
}

/// How many stacks are to the left of a bar, and how many begin with it.
#[derive(Clone, Copy)]
struct Span {
    before: u64,
    count: u64,
}

/// A bar of a method.
#[derive(Clone, Copy)]
struct Bar {
    method: u32,
    span: Span,
}

/// Whether two stacks have the same methods up to and including this depth.
fn agree(one: &[u32], other: &[u32], depth: usize) -> bool {
    for i in 0..=depth {
        if one.get(i) != other.get(i) {
            return false;
        }
    }
    true
}

/// The bars at a depth, from the left on. `left` stacks are to the left of all of them.
fn bars_at(alloc: Global, rows: &[Row], depth: usize, left: u64) -> Result<Vec<Bar>, AllocError> {
    let mut bars: Vec<Bar> = Vec::new(alloc);
    let mut before = left;
    for i in 0..rows.len() {
        let (path, count) = &rows[i];
        if let Some(method) = path.get(depth) {
            let joined = 0 < i && agree(&rows[i - 1].0, path, depth);
            match bars.last_mut() {
                Some(last) if joined => {
                    last.span.count = last.span.count.saturating_add(*count);
                }
                _ => bars.push(Bar {
                    method: *method,
                    span: Span {
                        before,
                        count: *count,
                    },
                })?,
            }
        }
        before = before.saturating_add(*count);
    }
    Ok(bars)
}

/// What is written for a character that the text of an SVG may not have.
fn entity_of(letter: char) -> Option<&'static str>
    ensures { option_map (λ e. e.now) result ≡ entity_of letter }
{
    match letter {
        '&' => Some("&amp;"),
        '<' => Some("&lt;"),
        '>' => Some("&gt;"),
        '"' => Some("&quot;"),
        '\'' => Some("&#39;"),
        _ => None,
    }
}

/// Writes a name as the text of an SVG.
fn write_name(text: &mut String, name: &str) -> Result<(), AllocError> {
    for letter in name.chars() {
        match entity_of(letter) {
            Some(entity) => text.push_str(entity)?,
            None => text.push(letter)?,
        }
    }
    Ok(())
}

/// A picture of `total` stacks, as far as it is written.
#[derive(Drop)]
struct Picture {
    text: String,
    /// The top of the lowest bar, in units.
    foot: u64,
    total: u64,
}

impl Picture {
    /// The part of `whole` that this number of stacks takes.
    fn share(&self, count: u64, whole: u64) -> u64 {
        if self.total == 0 {
            return 0;
        }
        count.saturating_mul(whole) / self.total
    }

    /// Writes the head, with a title.
    fn begin(&mut self, title: &str) -> Result<(), AllocError> {
        let height = self.foot.saturating_add(HEIGHT);
        write!(
            self.text,
            "<svg xmlns=\"http://www.w3.org/2000/svg\" viewBox=\"0 0 1200 {height}\" font-family=\"sans-serif\" font-size=\"12\">\n"
        )?;
        self.text.push_str(
            "<rect width=\"100%\" height=\"100%\" fill=\"#fffaf0\"/>\n<text x=\"4\" y=\"14\">",
        )?;
        write_name(&mut self.text, title)?;
        self.text.push_str("</text>\n")
    }

    /// Writes a bar. Its depth is counted from the foot.
    fn bar(&mut self, name: &str, hue: u32, depth: usize, span: Span) -> Result<(), AllocError> {
        let x = self.share(span.before, WIDTH);
        let width = self.share(span.count, WIDTH);
        let top = self
            .foot
            .saturating_sub((depth as u64).saturating_mul(HEIGHT));
        write!(
            self.text,
            "<g><rect x=\"{}.{:02}\" y=\"{}\" width=\"{}.{:02}\" height=\"19\" fill=\"hsl({},85%,62%)\" stroke=\"#fffaf0\"/>",
            x / 100,
            x % 100,
            top,
            width / 100,
            width % 100,
            hue
        )?;
        self.hover(name, span.count)?;
        if width / 800 > name.len() as u64 {
            self.label(name, x / 100 + 4, top.saturating_add(14))?;
        }
        self.text.push_str("</g>\n")
    }

    /// Writes what shows when the pointer rests on a bar: its name, its count, and its part of all stacks in percent.
    fn hover(&mut self, name: &str, count: u64) -> Result<(), AllocError> {
        let tenths = self.share(count, 1000);
        self.text.push_str("<title>")?;
        write_name(&mut self.text, name)?;
        write!(
            self.text,
            ": {} of {} stacks, {}.{} %</title>",
            count,
            self.total,
            tenths / 10,
            tenths % 10
        )
    }

    /// Writes a bar's name.
    fn label(&mut self, name: &str, x: u64, y: u64) -> Result<(), AllocError> {
        write!(self.text, "<text x=\"{x}\" y=\"{y}\">")?;
        write_name(&mut self.text, name)?;
        self.text.push_str("</text>")
    }

    /// Writes the bars of threads that did the same. The lowest is at this depth.
    fn fold(
        &mut self,
        alloc: Global,
        fold: &Fold,
        doing: Doing,
        depth: usize,
        before: u64,
    ) -> Result<(), AllocError> {
        let count = fold.total();
        if count == 0 {
            return Ok(());
        }
        let hue = hue_of(doing);
        self.bar(doing.word(), hue, depth, Span { before, count })?;
        let rows = rows_of(alloc, fold)?;
        for level in 0..deepest(fold) {
            let above = depth.saturating_add(level).saturating_add(1);
            for bar in bars_at(alloc, &rows, level, before)?.iter() {
                let name = name_of(MethodNo(bar.method));
                let shade = hue.saturating_add(bar.method % 12 * 5);
                self.bar(name, shade, above, bar.span)?;
            }
        }
        Ok(())
    }

    /// Writes all of it.
    fn draw(&mut self, alloc: Global, roots: &Roots, title: &str) -> Result<(), AllocError> {
        self.begin(title)?;
        let mut before: u64 = 0;
        for (place, part) in roots.parts().iter().enumerate() {
            let count = count_of(part);
            let owner = roots.owner(place);
            self.owned(alloc, owner, part, Span { before, count })?;
            before = before.saturating_add(count);
        }
        self.text.push_str("</svg>")
    }

    /// Writes the bars of an owner's part, on the owner's own bar if it has a name and a stack.
    fn owned(
        &mut self,
        alloc: Global,
        owner: Owner,
        part: &Part,
        span: Span,
    ) -> Result<(), AllocError> {
        match owner.name(alloc)? {
            Some(name) if span.count > 0 => {
                self.bar(name.as_str(), GREEN, 0, span)?;
                self.part(alloc, part, 1, span.before)
            }
            _ => self.part(alloc, part, 0, span.before),
        }
    }

    /// Writes the bars of a part.
    fn part(
        &mut self,
        alloc: Global,
        part: &Part,
        depth: usize,
        before: u64,
    ) -> Result<(), AllocError> {
        let ran = part.fold(Doing::Running);
        self.fold(alloc, ran, Doing::Running, depth, before)?;
        let after = before.saturating_add(ran.total());
        self.fold(alloc, part.fold(Doing::Away), Doing::Away, depth, after)
    }
}

/// The first hue of the bars of threads that did this.
fn hue_of(doing: Doing) -> u32 {
    match doing {
        Doing::Running => 5,
        Doing::Away => 185,
    }
}

/// The number of methods of the deepest stack.
fn deepest(fold: &Fold) -> usize {
    let mut most: usize = 0;
    for folded in fold.stacks() {
        most = most.max(folded.methods().len());
    }
    most
}

/// How many stacks a part has.
fn count_of(part: &Part) -> u64 {
    let ran = part.fold(Doing::Running).total();
    ran.saturating_add(part.fold(Doing::Away).total())
}

/// How many bars are on top of one another at most.
fn height_of(roots: &Roots) -> usize {
    let mut most: usize = 1;
    for (place, part) in roots.parts().iter().enumerate() {
        if count_of(part) == 0 {
            continue;
        }
        let below: usize = if matches!(roots.owner(place), Owner::Workers) {
            1
        } else {
            2
        };
        for doing in [Doing::Running, Doing::Away] {
            most = most.max(deepest(part.fold(doing)).saturating_add(below));
        }
    }
    most
}

/// The flame graph of all stacks, as an SVG with this title. The error is lack of memory.
pub fn flame_of(alloc: Global, roots: &Roots, title: &str) -> Result<String, AllocError> {
    let mut picture = Picture {
        text: String::new(alloc),
        foot: (height_of(roots) as u64).saturating_mul(HEIGHT),
        total: roots.total(),
    };
    picture.draw(alloc, roots, title)?;
    Ok(picture.text)
}

ghost use Rattle.std.specs.Prelude.{◌≡◌};
ghost use Rattle.std.specs.Option.{option_map};
ghost use Rattle.tiprof.specs.Flames.{entity_of};
