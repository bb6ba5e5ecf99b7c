// Which lines are answered in another way than they tell, and how many answers there were.
use crate::answer::{Answer, Fault};
use crate::line::Line;

/// How many lines were read, and how many answers were as they are told, and others.
#[derive(Clone, Copy, Default)]
pub struct Report {
    lines: u64,
    same: u64,
    others: u64,
}

impl Report {
    /// Reads one more line of the text.
    pub fn read<'a>(
        &mut self,
        rt: &HostRuntime,
        text: &'a str,
    ) -> anyhow::Result<Option<Line<'a>>> {
        self.lines = self.lines.wrapping_add(1);
        match Line::read(text) {
            Ok(line) => Ok(line),
            Err(fault) => {
                self.tell(rt, &Err(fault), "a line")?;
                Ok(None)
            }
        }
    }

    /// Counts the answer to the line that was read last, and prints it where another is told.
    pub fn tell(
        &mut self,
        rt: &HostRuntime,
        answer: &Result<Answer, Fault>,
        told: &str,
    ) -> anyhow::Result<()> {
        let text = match answer {
            Ok(answer) => format!(in rt.alloc(); "{answer}")?,
            Err(fault) => format!(in rt.alloc(); "{fault}")?,
        };
        if text.as_str() == told {
            self.same = self.same.wrapping_add(1);
            return Ok(());
        }
        self.others = self.others.wrapping_add(1);
        let (line, text) = (self.lines, text.as_str());
        println!(rt; "line {line}: {text}")?;
        Ok(())
    }

    /// Prints how many answers there were.
    pub fn end(&self, rt: &HostRuntime) -> anyhow::Result<()> {
        let (same, others) = (self.same, self.others);
        println!(rt; "{same} answers as they are told, {others} others")?;
        Ok(())
    }
}
