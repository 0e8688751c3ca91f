// The settings that a text has made so far.
use crate::bad_line::{Reason, Setting};
use crate::fields::byte;
use planfile::Settings;

#[derive(Clone, Copy)]
pub struct Given {
    processors: Option<u8>,
    delta: Option<u8>,
    letter: Option<u8>,
}

// No plainer by `LayoutKind`: the words of a text are its own, and the file has the letter.
fn letter(layout: &str) -> Result<u8, Reason> {
    match layout {
        "flat" => Ok(b'F'),
        "semi" => Ok(b'S'),
        "dedicated" => Ok(b'D'),
        _ => Err(Reason::NoLayout),
    }
}

fn once(place: &mut Option<u8>, value: Result<u8, Reason>) -> Result<(), Reason> {
    if place.is_some() {
        return Err(Reason::Twice);
    }
    *place = Some(value?);
    Ok(())
}

impl Given {
    pub(crate) fn nothing() -> Given {
        Given {
            processors: None,
            delta: None,
            letter: None,
        }
    }

    pub(crate) fn set(&mut self, setting: Setting, value: &str) -> Result<(), Reason> {
        match setting {
            Setting::Processors => once(&mut self.processors, byte(value)),
            Setting::Delta => once(&mut self.delta, byte(value)),
            Setting::Layout => once(&mut self.letter, letter(value)),
        }
    }

    // All three, or the first that is missing.
    pub(crate) fn whole(&self) -> Result<Settings, Reason> {
        match (self.processors, self.delta, self.letter) {
            (Some(processors), Some(delta), Some(letter)) => Ok(Settings {
                processors,
                delta,
                letter,
            }),
            (None, _, _) => Err(Reason::Unset(Setting::Processors)),
            (_, None, _) => Err(Reason::Unset(Setting::Delta)),
            (_, _, None) => Err(Reason::Unset(Setting::Layout)),
        }
    }
}
