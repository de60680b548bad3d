//! Reads the arguments of `make-device`.

ghost use Rattle.std.specs.Prelude.{◌≡◌, IfOk, map};
ghost use Rattle.std.specs.List.{AllZip};
ghost use Rattle.clap.specs.Words.{found_of, rows_of};
ghost use Rattle.command_line.specs.Given.{Finds};
ghost use Rattle.command_line.specs.Orders.{HasTrialBoots, IsNumber, SaysDevice};
ghost use Rattle.command_line.specs.Orders.{number_at, words_of};

use crate::order_fault_texts;
use crate::size_words::size_in;
use crate::word_values::{WordReader, values_of};
use clap::ArgMatches;
use command_line::{NewDevice, name_in, named};
use common::ascii::number;
use common::limits::MOST_TRIAL_BOOTS;
use std::alloc::{AllocError, Global};

/// Returns the device that the arguments describe, or `None` if one of the numbers isn't valid.
pub fn device_in<'a>(
    alloc: Global,
    names: &ArgMatches<'a>,
) -> Result<Option<NewDevice<'a>>, AllocError>
    ensures { IfOk result (Finds (SaysDevice (rows_of (found_of names.now)))) }
{
    let Some(sector_size) = size_in(names, named::SECTOR) else {
        return Ok(None);
    };
    let Some(slots) = name_in(names, named::SLOTS) else {
        return Ok(None);
    };
    let Some(sectors) = numbers_in(alloc, slots)? else {
        return Ok(None);
    };
    let Some(vendor) = name_in(names, named::VENDOR) else {
        return Ok(None);
    };
    let Some(class) = name_in(names, named::CLASS) else {
        return Ok(None);
    };
    let Some(trial_boots) = trial_boots_in(names) else {
        return Ok(None);
    };
    Ok(Some(NewDevice {
        sector_size,
        sectors,
        vendor,
        class,
        trial_boots,
    }))
}

/// Returns the text of the first fault of arguments that describe no device.
pub fn invalid_device(names: &ArgMatches<'_>) -> &'static str {
    if size_in(names, named::SECTOR).is_none() {
        order_fault_texts::NO_SECTOR
    } else if trial_boots_in(names).is_none() {
        order_fault_texts::NO_TRIAL_BOOTS
    } else {
        order_fault_texts::NO_SLOTS
    }
}

/// Returns the number that is given for this argument.
pub fn number_in(names: &ArgMatches<'_>, argument: &str) -> Option<u32>
    ensures { result ≡ number_at argument.now (rows_of (found_of names.now)) }
{
    number(name_in(names, argument)?.as_bytes())
}

/// Returns the number of boots of a trial, if it is given. Returns `None` if it isn't a number from
/// 1 to [`MOST_TRIAL_BOOTS`].
pub fn trial_boots_in(names: &ArgMatches<'_>) -> Option<Option<u8>>
    ensures { Finds (HasTrialBoots (rows_of (found_of names.now))) result }
{
    if name_in(names, named::TRIAL_BOOTS).is_none() {
        return Some(None);
    }
    let boots = u8::try_from(number_in(names, named::TRIAL_BOOTS)?).ok()?;
    if 1 <= boots && boots <= MOST_TRIAL_BOOTS {
        Some(Some(boots))
    } else {
        None
    }
}

/// Reads numbers that are separated by commas. Returns `None` if one of them isn't a number.
fn numbers_in(alloc: Global, text: &str) -> Result<Option<Vec<u32>>, AllocError>
    ensures { IfOk result (Finds (λ numbers.
        AllZip IsNumber (words_of text.now) numbers.items)) }
{
    let words = words_in(alloc, text)?;
    values_of(alloc, &NumberReader, &words)
}

/// Returns the words of a text that are separated by commas.
fn words_in<'a>(alloc: Global, text: &'a str) -> Result<Vec<&'a str>, AllocError>
    ensures { IfOk result (λ words. map (λ word. word.now) words.items ≡ words_of text.now) }
{
    text.split(',').collect(alloc)
}

/// Reads a number from a word.
#[derive(Clone, Copy)]
struct NumberReader;

impl WordReader<'_, u32> for NumberReader {
    ghost says = { λ _ word value. IsNumber word value };

    fn read(&self, _alloc: Global, word: &str) -> Result<Option<u32>, AllocError> {
        Ok(number(word.as_bytes()))
    }
}
