// What is told of a call so far.
ghost use Rattle.choose.specs.Line.{NoMoreLeft};

use crate::candidate::CandidateSettings;
use crate::fault::Fault;
use crate::lent::Lent;
use crate::line::Rest;
use crate::own::OwnSettings;
use crate::setting::Setting;
use arrayvec::ArrayVec;
use model::Candidate;

#[derive(Drop)]
pub struct Call {
    pub own: OwnSettings,
    pub candidates: ArrayVec<CandidateSettings, 16>,
    pub lent: Lent,
}

impl Call {
    pub(crate) fn new() -> Call {
        Call {
            own: OwnSettings::untold(),
            candidates: ArrayVec::new(),
            lent: Lent::new(),
        }
    }

    // Begins anew.
    pub(crate) fn clear(&mut self) {
        self.own = OwnSettings::untold();
        self.candidates.clear();
        self.lent.clear();
    }

    // The first setting that is missing: of the last candidate, or of the call where there is none.
    pub(crate) fn missing(&self) -> Option<Setting> {
        match self.candidates.as_slice().last() {
            Some(candidate) => candidate.missing(),
            None => self.own.missing(),
        }
    }

    // Begins the next candidate.
    pub(crate) fn begin_candidate(&mut self) -> Result<(), Fault> {
        if let Some(setting) = self.missing() {
            return Err(Fault::Missing(setting));
        }
        let candidate = CandidateSettings::behind(self.lent.bytes().len());
        self.candidates
            .try_push(candidate)
            .map_err(|_| Fault::TooManyCandidates)
    }

    // Takes a setting of the last candidate, or of the call where there is none, with what stands behind it.
    pub(crate) fn take(&mut self, setting: Setting, line: &mut Rest<'_>) -> Result<(), Fault>
        ensures { NoMoreLeft line.old line.new }
    {
        match self.candidates.as_mut_slice().last_mut() {
            Some(candidate) => candidate.take(setting, line, &mut self.lent),
            None => self.own.take(setting, line, &mut self.lent),
        }
    }

    // The candidates as a call has them: no call looks at the positions behind the last.
    pub(crate) fn list(&self) -> [Candidate; 16] {
        let mut list = [CandidateSettings::behind(0).candidate; 16];
        for (place, told) in list.iter_mut().zip(self.candidates.as_slice()) {
            *place = told.candidate;
        }
        list
    }
}
