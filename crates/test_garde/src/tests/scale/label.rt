//! A label, and its view as a text.
use garde::fields::View;

/// A text that is seen by a view.
#[derive(Drop)]
pub struct Label {
    pub text: String,
}

/// The view of a label as its text.
#[derive(Clone, Copy)]
pub struct LabelText;

impl View<Label> for LabelText {
    type Seen = String;

    ghost seen = { λ _ label. label.text };

    fn see<'v>(&self, label: &'v Label) -> &'v String {
        &label.text
    }
}
