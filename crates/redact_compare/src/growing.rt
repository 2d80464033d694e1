//! Generated reports that begin with given lines.

use iodef_tree::{Kind, Line, Shape, Text};
use std::alloc::{AllocError, Global};
use trying::Dice;

/// Lines that always are an outline. A line that may not follow them is left out.
#[derive(Drop)]
struct Growing {
    alloc: Global,
    shape: Shape,
    lines: Vec<Line>,
}

fn class_name(dice: &mut Dice) -> &'static str {
    match dice.roll(6) {
        0 => "Flow",
        1 => "System",
        2 => "ext-t",
        3 => "restrictions",
        4 => "é",
        _ => "Node",
    }
}

fn plain_name(dice: &mut Dice) -> &'static str {
    match dice.roll(6) {
        0 => "a",
        1 => "ext-s",
        2 => "note",
        3 => "restriction0",
        4 => "zone",
        _ => "s",
    }
}

fn plain_text(dice: &mut Dice) -> &'static str {
    match dice.roll(4) {
        0 => "a needle",
        1 => "needles",
        2 => "",
        _ => "text",
    }
}

fn label(dice: &mut Dice) -> &'static str {
    match dice.roll(6) {
        0 => "public",
        1 => "green",
        2 => "amber",
        3 => "default",
        4 => "ext-value",
        _ => "red",
    }
}

fn label_text(dice: &mut Dice) -> &'static str {
    match dice.roll(4) {
        0 => "TLP:CLEAR",
        1 => "tlp:green",
        2 => "TLP:AMBER",
        _ => "ours",
    }
}

impl Growing {
    /// Makes it of these lines.
    fn of(alloc: Global, lines: &[Line]) -> Result<Growing, AllocError> {
        let mut growing = Growing {
            alloc,
            shape: Shape::new(alloc),
            lines: Vec::new(alloc),
        };
        for line in lines {
            growing.put(line.clone()?)?;
        }
        Ok(growing)
    }

    fn put(&mut self, line: Line) -> Result<(), AllocError> {
        if self.shape.accept(&line)? {
            self.lines.push(line)?;
        }
        Ok(())
    }

    /// Returns how deep the next line may be.
    fn deepest(&self) -> u32 {
        match self.lines.last() {
            Some(line) if line.kind == Kind::Class => line.depth.saturating_add(1),
            Some(line) => line.depth,
            None => 1,
        }
    }

    fn put_member(
        &mut self,
        depth: u32,
        name: &str,
        in_array: bool,
        kind: Kind,
        text: &str,
    ) -> Result<(), AllocError> {
        let name = Text::new(String::from_str(self.alloc, name)?);
        let text = Text::new(String::from_str(self.alloc, text)?);
        self.put(Line {
            depth,
            name,
            in_array,
            kind,
            text,
        })
    }

    fn put_text(&mut self, depth: u32, name: &str, text: &str) -> Result<(), AllocError> {
        self.put_member(depth, name, false, Kind::Text, text)
    }

    /// Puts a label, often with the text that `ext-value` asks for.
    fn put_label(&mut self, dice: &mut Dice, depth: u32) -> Result<(), AllocError> {
        if dice.once_in(3) {
            self.put_text(depth, "ext-restriction", label_text(dice))?;
            return self.put_text(depth, "restriction", "ext-value");
        }
        self.put_text(depth, "restriction", label(dice))
    }

    fn put_any(&mut self, dice: &mut Dice) -> Result<(), AllocError> {
        let depth = dice.one_to(self.deepest());
        let in_array = dice.once_in(2);
        match dice.roll(5) {
            0 => self.put_label(dice, depth),
            1 | 2 => self.put_member(depth, class_name(dice), in_array, Kind::Class, ""),
            3 => self.put_member(
                depth,
                plain_name(dice),
                in_array,
                Kind::Text,
                plain_text(dice),
            ),
            _ => self.put_member(depth, plain_name(dice), in_array, Kind::Value, "7"),
        }
    }

    /// Puts the label that a text in front of it asks for.
    fn put_asked_label(&mut self, dice: &mut Dice) -> Result<(), AllocError> {
        match self.lines.last() {
            Some(line) if line.name.as_str() == "ext-restriction" => {
                let depth = line.depth;
                self.put_text(depth, "restriction", label(dice))
            }
            _ => Ok(()),
        }
    }

    /// Puts labels of some of the classes that are still open.
    fn put_labels(&mut self, dice: &mut Dice) -> Result<(), AllocError> {
        for up in 0..self.deepest() {
            if dice.once_in(2) {
                let depth = self.deepest().saturating_sub(up).max(1);
                self.put_text(depth, "restriction", label(dice))?;
            }
        }
        Ok(())
    }
}

/// Returns the lines, and some more behind them.
pub fn completion(alloc: Global, dice: &mut Dice, lines: &[Line]) -> Result<Vec<Line>, AllocError> {
    let mut growing = Growing::of(alloc, lines)?;
    growing.put_asked_label(dice)?;
    for _ in 0..dice.roll(9) {
        growing.put_any(dice)?;
    }
    growing.put_labels(dice)?;
    Ok(growing.lines)
}
