//! What the words ask for.
ghost use Rattle.std.specs.Prelude.{◌<◌, ◌≤◌, IfSome};

use jn_solver_samples::{Net, Shape};

/// The most workers that a run may have.
const MOST_WORKERS: u32 = 16;

/// A net to be solved.
#[derive(Clone, Copy, Debug)]
pub struct Request {
    pub net: Net,
    /// How many workers; 0 stands for a drain on one thread.
    pub workers: u32,
    /// How often it is solved.
    pub repeats: u32,
}

impl Request {
    /// The word for the net's shape.
    pub fn shape_name(&self) -> &'static str {
        match self.net.shape {
            Shape::Chain => "chain",
            Shape::Star => "star",
            Shape::Ring => "ring",
        }
    }
}

fn shape_of(word: &str) -> Option<Shape> {
    match word {
        "chain" => Some(Shape::Chain),
        "star" => Some(Shape::Star),
        "ring" => Some(Shape::Ring),
        _ => None,
    }
}

/// The request of four words, SHAPE COUNT WORKERS REPEATS. There is none where a word is unknown or
/// no number, where there is no body or no run, or where there are more than 16 workers.
pub fn request_of(words: &[String]) -> Option<Request>
    ensures any { IfSome result (λ request. 0 < request.net.bodies) }
    ensures workers { IfSome result (λ request. request.workers ≤ 16) }
{
    let [shape, bodies, workers, repeats] = words else {
        return None;
    };
    let shape = shape_of(shape.as_str())?;
    let bodies = bodies.as_str().parse::<u32>().ok()?;
    let workers = workers.as_str().parse::<u32>().ok()?;
    let repeats = repeats.as_str().parse::<u32>().ok()?;
    if bodies == 0 || repeats == 0 || workers > MOST_WORKERS {
        return None;
    }
    Some(Request {
        net: Net { shape, bodies },
        workers,
        repeats,
    })
}
