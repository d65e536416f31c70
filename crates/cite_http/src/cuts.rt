// Texts cut at a byte.
ghost use Rattle.std.specs.Prelude.{◌≡◌, ◌∷◌, ◌<◌, ◌≤◌, length, drop, IfSome};
ghost use Rattle.cite_http.specs.Parts.{parts};
ghost use Rattle.cite_http.specs.Cuts.{parts_left};

/// A text cut at a byte: what stands in front of the first such byte, and what stands behind it, if there is one.
#[derive(Clone, Copy, Drop)]
pub struct Cut<'a> {
    pub first: &'a [u8],
    pub rest: Option<&'a [u8]>,
}

/// A text cut at the first such byte.
pub fn cut_at<'a>(text: &'a [u8], at: u8) -> Cut<'a>
    ensures parts { parts at text.now ≡ result.first.now ∷ parts_left at result.rest }
    ensures shorter { IfSome result.rest (λ rest. length rest.now < length text.now) }
{
    for i in 0..text.len() {
        if text[i] == at {
            return Cut {
                first: &text[..i],
                rest: Some(&text[i + 1..]),
            };
        }
    }
    Cut {
        first: text,
        rest: None,
    }
}

/// A text from a byte on.
pub fn rest_from(text: &[u8], start: usize) -> &[u8]
    requires { start ≤ length text.now }
    ensures { result.now ≡ drop start text.now }
{
    &text[start..]
}
