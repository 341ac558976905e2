// An accepted list of labels, and for each label the place where its length stands.
ghost use Rattle.std.specs.Prelude.{[], ◌≡◌, ◌≤◌, ◌<◌, length, get_or};
ghost use Rattle.labels.specs.Labels.{label_count, read_labels};
ghost use Rattle.writer.specs.inner.Tables.{LabelPlaces};

#[derive(Clone, Copy)]
pub struct LabelList<'a> {
    pub bytes: &'a [u8],
    pub places: &'a [usize],
    pub ghost placed: { LabelPlaces bytes.now places.now },
}

impl<'a> LabelList<'a> {
    // The label of the state q.
    #[tactic(auto, using(crate::proofs::Places::label_laws))]
    pub fn label(self, q: u32) -> &'a [u8]
        requires { q < label_count self.bytes.now }
        ensures { result.now ≡ get_or (read_labels self.entry.bytes.now) q [] }
    {
        let at = self.places[q as usize];
        labels::label_from(self.bytes, at)
    }

    // The length of the label of the state q.
    #[tactic(auto, using(crate::proofs::Counting::label_length_laws))]
    pub fn label_length(self, q: u32) -> usize
        requires { q < label_count self.bytes.now }
        ensures { (result ≡ length (get_or (read_labels self.entry.bytes.now) q [])) × (result ≤ 64) }
    {
        self.label(q).len()
    }
}
