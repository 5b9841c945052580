//! The arguments.

/// What the arguments ask for.
#[derive(Clone, Copy)]
pub struct Words<'a> {
    /// The sector of the superblock, of 512 bytes, where one is asked for.
    pub sector: Option<u32>,
    /// The images.
    pub names: &'a [String],
}

impl<'a> Words<'a> {
    /// What arguments ask for: `[-b sector] image..`.
    pub fn of(arguments: &'a [String]) -> Option<Words<'a>> {
        if arguments.is_empty() {
            return None;
        }
        if arguments[0].as_str() != "-b" {
            return Some(Words {
                sector: None,
                names: arguments,
            });
        }
        if arguments.len() < 3 {
            return None;
        }
        let sector = arguments[1].as_str().parse().ok()?;
        Some(Words {
            sector: Some(sector),
            names: &arguments[2..],
        })
    }
}
