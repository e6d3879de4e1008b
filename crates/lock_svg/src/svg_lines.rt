//! The lines of a script that a pointer shows.
ghost use Rattle.std.specs.Prelude.{◌≡◌, Some};
ghost use Rattle.std.specs.Fmt.{WritesOnOk};
ghost use Rattle.lock_svg.specs.Shapes.{ground_of, line_ground, line_text};
ghost use Rattle.lock_svg.specs.Xml.{xml_byte, xml_text};

use crate::area::Area;
use crate::frame::{Frame, LINE_TOP};
use lock_bars::{Column, ScriptLines};
use std::fmt;

/// A byte of a line as XML has it; a blank in place of what is no printing character.
#[derive(Clone, Copy)]
struct XmlByte(u8);

impl fmt::Display for XmlByte {
    ghost output = { λ b. Some (xml_byte b.0) };

    fn fmt<W: fmt::Write>(&self, f: &mut fmt::Formatter<W>) -> fmt::Result {
        let byte = self.0;
        match byte {
            b'<' => f.write_str("&lt;"),
            b'>' => f.write_str("&gt;"),
            b'&' => f.write_str("&amp;"),
            b' '..=b'~' => f.write_char(char::from(byte)),
            _ => f.write_str(" "),
        }
    }
}

/// A line as XML has it.
#[derive(Clone, Copy)]
struct XmlText<'a>(&'a [u8]);

impl fmt::Display for XmlText<'_> {
    ghost output = { λ t. Some (xml_text t.0.now) };

    #[tactic(auto, unfolding(crate::specs::Xml::xml_text))]
    fn fmt<W: fmt::Write>(&self, f: &mut fmt::Formatter<W>) -> fmt::Result {
        for byte in self.0 {
            let byte = XmlByte(*byte);
            write!(f, "{byte}")?;
        }
        Ok(())
    }
}

/// What is said of a column: its line of the script.
#[derive(Clone, Copy)]
struct LineText<'a> {
    column: Column,
    line: &'a [u8],
}

impl fmt::Display for LineText<'_> {
    ghost output = { λ l. Some (line_text l.column l.line.now) };

    #[tactic(auto, unfolding(crate::specs::Shapes::line_text))]
    fn fmt<W: fmt::Write>(&self, f: &mut fmt::Formatter<W>) -> fmt::Result {
        let (column, text) = (self.column, XmlText(self.line));
        write!(f, "line {column}: {text}")
    }
}

/// Where the ground of a column that begins at an edge is drawn.
fn ground_of(frame: &Frame, edge: usize) -> Area
    ensures { result ≡ ground_of frame.now edge }
{
    Area {
        x: edge,
        y: LINE_TOP,
        width: frame.column,
        height: frame.lanes_end.saturating_sub(LINE_TOP),
    }
}

/// Writes the ground of a column, which shows a line of the script.
fn write_line<W: fmt::Write>(
    f: &mut fmt::Formatter<W>,
    area: Area,
    column: Column,
    line: &[u8],
) -> fmt::Result
    ensures { WritesOnOk W.write_str_gives f.old result (line_ground area column line.now) f.new }
{
    let text = LineText { column, line };
    write!(
        f,
        "<rect class=\"line\" {area}><title>{text}</title></rect>\n"
    )
}

/// Writes a ground behind each column, which shows the line of the script where a pointer rests on it. Nothing where
/// there is no script.
pub fn write_lines<W: fmt::Write>(
    f: &mut fmt::Formatter<W>,
    frame: &Frame,
    columns: &[Column],
    script: &[u8],
) -> fmt::Result {
    if script.is_empty() {
        return Ok(());
    }
    let mut lines = ScriptLines::of(script);
    let mut number = 0usize;
    let mut line: &[u8] = b"";
    for (i, column) in columns.iter().enumerate() {
        let column = *column;
        for _ in number..column.line {
            line = lines.next().unwrap_or(b"");
        }
        number = column.line;
        write_line(f, ground_of(frame, frame.x_of(i + 1)), column, line)?;
    }
    Ok(())
}
