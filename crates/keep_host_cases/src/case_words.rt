use crate::no_case::No;

/// The number that is written there.
pub(crate) fn number_in(word: &str) -> Result<u64, No> {
    match word.parse::<u64>() {
        Ok(number) => Ok(number),
        Err(_) => Err(No::Case),
    }
}
