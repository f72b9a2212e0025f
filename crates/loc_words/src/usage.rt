//! The usage text.
ghost use Rattle.std.specs.Prelude.{◌≡◌};
ghost use Rattle.loc_words.specs.Usage as spec;

/// The lines that are written where words are no command.
pub fn usage_text() -> &'static str
    ensures { result.now ≡ spec.usage_text }
{
    "usage: locate query LAYER POINTS --scale K [--form lines|csv] [--index scan|tree|trap] [--order FILE | --shuffle N] [--faces]\n       locate features LAYER POINTS --scale K [--form lines|csv]\n       locate check LAYER --scale K [--form lines|csv]\n       locate build LAYER INDEX --scale K [--form lines|csv]\n       locate ask INDEX POINTS\n       locate verify INDEX\n       locate face LAYER POINT --scale K [--form lines|csv]\n       locate gen KIND N SHIFT\n       locate trial KIND N SHIFT [--index scan|tree|trap]\n       locate upgrade OLD NEW\n       locate edges INDEX\n       locate stab LAYER SPANS --scale K [--form lines|csv]\n       locate valid LAYER --scale K [--form lines|csv]\n       locate dissolve LAYER --scale K [--form lines|csv]\n"
}
