//! The price sheet: holds claimed shadow prices to their demand curves, and prints the fifteen
//! clearing prices of the fixed map.
//!
//! It reads the curve book file `curves.bin` in the working folder and, from standard input, one
//! claim to a line: shadow price, target and quantity of the requirement whose turn it is.
#![tactic(auto)]

ghost use Rattle.std.specs.Prelude.{◌≡◌, ℕ, IfOk, slice_index, slice_index_or};
ghost use Rattle.sums.specs.Verdict.{told};
ghost use Rattle.curves.specs.Book.{curves_of};
ghost use Rattle.maps.specs.Fixed.{fixed_market};
ghost use Rattle.market.specs.Claims.{price_verdict};
ghost use Rattle.market.specs.Tables.{no_prices, prices_at_lem};

mod claims;
mod problem;
mod table;

use claims::{Claims, read_claims};
use curves::CurveBook;
use faults::Fault;
use feed::read_curve_book;
use maps::FixedMap;
use market::{ProductPrices, check_prices, clearing_prices};
use problem::Problem;
use std::fs;
use std::process::ExitCode;
use table::table_text;

/// The clearing prices at each location, if every claim keeps to its demand curve.
fn price_all(
    prices: &[u32],
    targets: &[u32],
    quantities: &[u128],
    curves: &CurveBook,
) -> Result<[ProductPrices; 16], Fault>
    ensures reply { told result ≡ price_verdict fixed_market prices.now targets.now (curves_of curves.now) (λ k. slice_index quantities.now k) }
    ensures value { IfOk result (λ t. (l : ℕ) → slice_index_or t l no_prices ≡ prices_at_lem fixed_market prices.now l) }
{
    check_prices(&FixedMap, prices, targets, curves, quantities)?;
    Ok(clearing_prices(&FixedMap, prices))
}

/// The curve book of the file `curves.bin`.
fn read_curves(rt: &HostRuntime) -> Result<CurveBook, Problem> {
    let bytes = fs::read(rt, "curves.bin")?;
    let mut book = CurveBook::blank();
    read_curve_book(bytes.as_slice(), &mut book)?;
    Ok(book)
}

/// The text to print, so that nothing is printed before all is known.
fn run(rt: &HostRuntime) -> Result<String, Problem> {
    let heap = rt.alloc();
    let curves = read_curves(rt)?;
    let claims = read_claims(rt)?;
    let prices = claims.column(heap, |claim| claim.price)?;
    let targets = claims.column(heap, |claim| claim.target)?;
    let quantities = claims.column(heap, |claim| u128::from(claim.quantity))?;
    let priced = price_all(
        prices.as_slice(),
        targets.as_slice(),
        quantities.as_slice(),
        &curves,
    )
    .map_err(|fault| claims.blame(fault, &curves))?;
    Ok(table_text(heap, &priced)?)
}

fn main(rt: HostRuntime) -> ExitCode {
    match run(&rt) {
        Ok(text) => match print!(rt; "{text}") {
            Ok(()) => ExitCode::SUCCESS,
            Err(_) => ExitCode::FAILURE,
        },
        Err(problem) => {
            let _ = eprintln!(rt; "price_sheet: {problem}");
            ExitCode::FAILURE
        }
    }
}
