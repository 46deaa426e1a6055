//! The printed table of clearing prices.
use market::ProductPrices;
use std::alloc::{AllocError, Global};

/// The locations of the fixed map, in their order.
const LOCATIONS: [&str; 5] = ["West", "East", "Southeast", "New York City", "Long Island"];

/// The table, one location to a line, in cents per MW and hour.
pub(crate) fn table_text(heap: Global, prices: &[ProductPrices; 16]) -> Result<String, AllocError> {
    let mut text = String::from_str(heap, "Clearing prices in cents per MW and hour\n")?;
    text.push_str("location       thirty-minute    ten-minute      spinning\n")?;
    for (name, row) in LOCATIONS.iter().zip(prices) {
        let thirty = row.thirty;
        let ten = row.ten;
        let spinning = row.spinning;
        let line = format!(in heap; "{name:<14}{thirty:>14}{ten:>14}{spinning:>14}\n")?;
        text.push_str(line.as_str())?;
    }
    Ok(text)
}
