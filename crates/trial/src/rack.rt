// The plan of a trial.
use columns::Form;
use duty::{Header, Record};
use fault::Fault;
use plans::OpenPlan;
use reader::read;

// A plan that can be closed under its header's gauge: the header, and the records of its duties.
#[derive(Clone, Copy)]
pub struct Rack<'a> {
    pub header: Header,
    pub records: &'a [Record],
}

impl<'a> Rack<'a> {
    // Reads the plan's text into the records, or says why it is none that can be closed.
    pub fn read(
        text: &[u8],
        records: &'a mut [Record; Header::MOST_RECORDS],
    ) -> Result<Rack<'a>, Fault> {
        let header = read(Form::Plan, text, records)?;
        OpenPlan::new(header, records).check(&header.letter())?;
        Ok(Rack {
            header,
            records: &records[..header.duties() as usize],
        })
    }
}
