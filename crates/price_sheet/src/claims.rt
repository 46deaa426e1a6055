//! Claims as they come in, one requirement to a line.
use crate::problem::Problem;
use curves::CurveBook;
use faults::Fault;
use maps::{FixedMap, LocationMap};
use std::alloc::{AllocError, Global};
use std::str::FromStr;

/// One requirement's claim: its shadow price at a target and a quantity.
#[derive(Clone, Copy)]
pub(crate) struct Claim {
    pub price: u32,
    pub target: u32,
    pub quantity: u64,
}

/// A line that is not three whole numbers.
#[derive(Clone, Copy)]
pub(crate) struct NotAClaim;

impl FromStr for Claim {
    type Err = NotAClaim;

    fn from_str(line: &str) -> Result<Claim, NotAClaim> {
        let mut words = line.split_whitespace();
        let price = words
            .next()
            .ok_or(NotAClaim)?
            .parse::<u32>()
            .map_err(|_| NotAClaim)?;
        let target = words
            .next()
            .ok_or(NotAClaim)?
            .parse::<u32>()
            .map_err(|_| NotAClaim)?;
        let quantity = words
            .next()
            .ok_or(NotAClaim)?
            .parse::<u64>()
            .map_err(|_| NotAClaim)?;
        match words.next() {
            None => Ok(Claim {
                price,
                target,
                quantity,
            }),
            Some(_) => Err(NotAClaim),
        }
    }
}

/// A claim, and the line of the input that it stands on.
#[derive(Clone, Copy)]
struct Placed {
    line: usize,
    claim: Claim,
}

/// The claims in the order of the requirements.
#[derive(Drop)]
pub struct Claims(Vec<Placed>);

/// Whether a line says nothing: it is blank, or a remark.
fn is_silent(line: &str) -> bool {
    let text = line.trim();
    text.is_empty() || text.starts_with('#')
}

impl Claims {
    fn add(&mut self, line: usize, claim: Claim) -> Result<(), Problem> {
        if self.0.len() >= FixedMap.requirements() {
            return Err(Problem::TooMany(line));
        }
        self.0.push(Placed { line, claim })?;
        Ok(())
    }

    /// One number of each claim.
    pub(crate) fn column<T: Drop, F: Fn(&Claim) -> T>(
        &self,
        heap: Global,
        number: F,
    ) -> Result<Vec<T>, AllocError>
        requires { F.IsAlwaysCallable number }
    {
        self.0
            .iter()
            .map(|placed| number(&placed.claim))
            .collect(heap)
    }

    /// The refusal, with the line that is to blame where there is one.
    pub(crate) fn blame(&self, fault: Fault, curves: &CurveBook) -> Problem {
        match fault {
            Fault::PriceOrTargetOutOfRange { requirement } => match self.0.get(requirement) {
                Some(placed) => Problem::OutOfRange {
                    line: placed.line,
                    requirement,
                },
                None => Problem::Refused(fault),
            },
            Fault::AboveDemandCurve { requirement } => match self.0.get(requirement) {
                Some(Placed { line, claim }) => Problem::Above {
                    line: *line,
                    requirement,
                    claimed: claim.price,
                    allowed: curves.value(requirement, claim.target, u128::from(claim.quantity)),
                },
                None => Problem::Refused(fault),
            },
            other => Problem::Refused(other),
        }
    }
}

/// Reads the claims from standard input; the first line that is none is refused.
pub(crate) fn read_claims(rt: &HostRuntime) -> Result<Claims, Problem> {
    let heap = rt.alloc();
    let mut claims = Claims(Vec::new(heap));
    for (line, text) in (1usize..).zip(rt.lines(heap)) {
        let text = text?;
        if is_silent(text.as_str()) {
            continue;
        }
        match text.as_str().parse::<Claim>() {
            Ok(claim) => claims.add(line, claim)?,
            Err(NotAClaim) => return Err(Problem::Line(line)),
        }
    }
    Ok(claims)
}
