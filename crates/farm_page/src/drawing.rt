//! The drawings of the last attempts.

ghost use Rattle.std.specs.Prelude.{◌≤◌};

use crate::attempts::{Attempts, DRAWN};
use crate::markup::Markup;
use crate::view::AttemptView;
use std::alloc::{AllocError, Global};

/// How high the greatest number is drawn, of 1,000.
const HEIGHT: u128 = 960;

/// What a drawing shows of each attempt.
#[derive(Clone, Copy)]
enum Quantity {
    /// Its backlog.
    Backlog,
    /// The jobs that wait.
    Waiting,
}

impl Quantity {
    /// That of an attempt, if it has it.
    fn of(self, attempt: &AttemptView) -> Option<u64> {
        match self {
            Quantity::Backlog => attempt.backlog,
            Quantity::Waiting => attempt.waiting,
        }
    }

    /// That of the last attempt, if it has it.
    fn of_last(self, attempts: &Attempts) -> Option<u64> {
        match attempts.each().back() {
            Some(attempt) => self.of(attempt),
            None => None,
        }
    }

    /// The greatest of the attempts, and 0 if there is none.
    fn greatest(self, attempts: &Attempts) -> u64 {
        let mut greatest = 0u64;
        for attempt in attempts.each() {
            greatest = greatest.max(self.of(attempt).unwrap_or(0));
        }
        greatest
    }
}

/// A number in a drawing.
#[derive(Clone, Copy)]
struct Point {
    /// Its place from the left.
    at: u64,
    /// How far it is from the top, of 1,000.
    down: u64,
}

/// How far from the top a number is drawn, of 1,000.
fn down(number: u64, top: u64) -> u64
    requires { 1 ≤ top }
{
    let part = HEIGHT * u128::from(number) / u128::from(top);
    1_000u64.saturating_sub(u64::try_from(part).unwrap_or(1_000))
}

/// Adds a corner of the line.
fn put_corner(out: &mut Markup, corner: Point) -> Result<(), AllocError> {
    out.put_number(corner.at)?;
    out.put_tags(",")?;
    out.put_number(corner.down)?;
    out.put_tags(" ")
}

/// Adds a step of the line: from the place of a number to the next.
fn put_step(out: &mut Markup, point: Point) -> Result<(), AllocError> {
    let next = Point {
        at: point.at.saturating_add(1),
        down: point.down,
    };
    put_corner(out, point)?;
    put_corner(out, next)
}

/// Adds the ground of an attempt without a number.
fn put_gap(out: &mut Markup, at: u64) -> Result<(), AllocError> {
    out.put_tags("<rect class=\"gap\" y=\"0\" width=\"1\" height=\"1000\" x=\"")?;
    out.put_number(at)?;
    out.put_tags("\"/>")
}

/// A line that is drawn as far as its numbers follow each other.
#[derive(Drop)]
struct Line {
    out: Markup,
    is_open: bool,
}

impl Line {
    /// Adds a number to the line.
    fn put(&mut self, point: Point) -> Result<(), AllocError> {
        if !self.is_open {
            self.out.put_tags(
                "<polyline class=\"curve\" vector-effect=\"non-scaling-stroke\" points=\"",
            )?;
            self.is_open = true;
        }
        put_step(&mut self.out, point)
    }

    /// Ends the line, if it is begun.
    fn end(&mut self) -> Result<(), AllocError> {
        if self.is_open {
            self.out.put_tags("\"/>")?;
            self.is_open = false;
        }
        Ok(())
    }
}

/// The lines of what is drawn, and the grounds of the attempts without it. The last is at the right. The only error is out of memory.
fn curve(
    alloc: Global,
    attempts: &Attempts,
    quantity: Quantity,
    top: u64,
) -> Result<Markup, AllocError>
    requires { 1 ≤ top }
{
    let mut line = Line {
        out: Markup::new(alloc),
        is_open: false,
    };
    let mut at = DRAWN.saturating_sub(attempts.each().len()) as u64;
    for attempt in attempts.each() {
        match quantity.of(attempt) {
            Some(number) => line.put(Point {
                at,
                down: down(number, top),
            })?,
            None => {
                line.end()?;
                put_gap(&mut line.out, at)?;
            }
        }
        at = at.saturating_add(1);
    }
    line.end()?;
    Ok(line.out)
}

/// What is told of a drawing in words.
#[derive(Clone, Copy)]
struct Scale {
    quantity: Quantity,
    /// That of now, if there is one.
    now: Option<u64>,
    greatest: u64,
}

impl Scale {
    /// That of these attempts.
    fn of(quantity: Quantity, attempts: &Attempts) -> Scale {
        Scale {
            quantity,
            now: quantity.of_last(attempts),
            greatest: quantity.greatest(attempts),
        }
    }

    /// Adds the number of now, or that there is none.
    fn put_now(&self, out: &mut Markup) -> Result<(), AllocError> {
        match self.now {
            Some(number) => out.put_number(number),
            None => out.put_tags("none"),
        }
    }

    /// Adds what stands above the drawing: its name, the number of now, and the greatest, which its upper axis marks.
    fn put_caption(&self, out: &mut Markup) -> Result<(), AllocError> {
        match self.quantity {
            Quantity::Backlog => out.put_tags(
                "<figcaption><span><b>Backlog</b>, jobs per worker: now ",
            )?,
            Quantity::Waiting => out.put_tags("<figcaption><span><b>Waiting jobs</b>: now ")?,
        }
        self.put_now(out)?;
        out.put_tags("</span><span>highest ")?;
        out.put_number(self.greatest)?;
        out.put_tags("</span></figcaption>")
    }

    /// Adds the ground of the lines, which says in words what they show.
    fn put_ground(&self, out: &mut Markup) -> Result<(), AllocError> {
        out.put_tags(
            "<svg class=\"chart\" viewBox=\"0 0 600 1000\" preserveAspectRatio=\"none\" role=\"img\" aria-label=\"",
        )?;
        match self.quantity {
            Quantity::Backlog => out.put_tags("Backlog of the last 600 attempts, now ")?,
            Quantity::Waiting => out.put_tags("Waiting jobs of the last 600 attempts, now ")?,
        }
        self.put_now(out)?;
        out.put_tags(", highest ")?;
        out.put_number(self.greatest)?;
        out.put_tags(
            "\"><path class=\"axis\" vector-effect=\"non-scaling-stroke\" d=\"M0,40H600M0,1000H600\"/>",
        )
    }
}

/// One drawing, with its scale. The only error is out of memory.
fn drawing(alloc: Global, attempts: &Attempts, quantity: Quantity) -> Result<Markup, AllocError> {
    let scale = Scale::of(quantity, attempts);
    let lines = curve(alloc, attempts, quantity, scale.greatest.max(1))?;
    let mut out = Markup::new(alloc);
    out.put_tags("<figure>")?;
    scale.put_caption(&mut out)?;
    scale.put_ground(&mut out)?;
    out.put(&lines)?;
    out.put_tags("</svg></figure>")?;
    Ok(out)
}

/// The drawings of the last attempts, one below the other, with one axis of time: the backlogs, and the jobs that wait. Their numbers are
/// of other magnitudes, so each has a scale of its own. The only error is out of memory.
pub fn drawings(alloc: Global, attempts: &Attempts) -> Result<Markup, AllocError> {
    let backlogs = drawing(alloc, attempts, Quantity::Backlog)?;
    let waiting = drawing(alloc, attempts, Quantity::Waiting)?;
    let mut out = Markup::new(alloc);
    out.put_tags("<section>")?;
    out.put(&backlogs)?;
    out.put(&waiting)?;
    out.put_tags(
        "<div class=\"ends\"><span>600 attempts ago</span><span>now</span></div></section>\n",
    )?;
    Ok(out)
}
