//! A large valid program, made from a number.
//!
//! [`generate`] gives its text, byte for byte the lines of `specs/Generated.antt`.
#![tactic(auto)]

ghost use Rattle.std.specs.Prelude.{◌≡◌, ◌≤◌, string_bytes, IfOk};
ghost use Rattle.jn_gen.specs.Generated.{class_lines, program_lines, text_of};

use jn_base::OutOfMemory;
use std::alloc::{AllocError, Global};

/// The text of a program of `n` classes, `G0` to `G(n - 1)`, which breaks no rule. `n` is 1 to 500.
pub fn generate(alloc: Global, n: u32) -> Result<Vec<u8>, OutOfMemory>
    requires some { 1 ≤ n }
    requires most { n ≤ 500 }
    ensures { IfOk result (λ text. text.items ≡ text_of (program_lines n)) }
{
    let mut text = Vec::new(alloc);
    for k in 0..n {
        let class = class(alloc, k)?;
        text.extend_from_slice(class.as_bytes())?;
    }
    Ok(text)
}

fn class(alloc: Global, k: u32) -> Result<String, AllocError>
    ensures { IfOk result (λ class. string_bytes class ≡ text_of (class_lines k)) }
{
    format!(in alloc;
        "class G{k} {{\n  private @Nullable G{k} next;\n  private String tag;\n  G{k}(String t) {{ this.tag = t; }}\n  private String pick(G{k} o) {{\n    if (o == null) return this.tag;\n    return o.tag;\n  }}\n  String run() {{ return pick(next) + pick(this); }}\n}}\n"
    )
}
